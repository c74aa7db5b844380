ghost use Rattle.std.specs.Prelude.{◌≡◌, ◌+◌, ◌-◌, ◌^◌, ◌<◌, max, [], ◌∷◌, ◌++◌, length, IfOk, if◌then◌else◌, vec_len, OnOk, nat_lt, is_some};
ghost use Rattle.std.specs.List.{range_with_len, flat_map};
ghost use Rattle.std.specs.Option.{option_to_list};
ghost use Rattle.forms.specs.Parts.{listed, total_nodes, total_end, totals_of, end_of};

use crate::coefficients::Coefficients;
use std::alloc::AllocError;
use wiring::graph::Node;

// Adds the node if there is one and answers its number; else answers the number `before`.
fn add_if_some(
    nodes: &mut Vec<Node>,
    node: Option<Node>,
    before: usize,
) -> Result<usize, AllocError>
    ensures { IfOk result (λ n. (nodes.new.items ≡ nodes.old.items ++ option_to_list node) × (n ≡ (if is_some node then vec_len nodes.old else before))) }
{
    let Some(node) = node else {
        return Ok(before);
    };
    let number = nodes.len();
    nodes.push(node)?;
    Ok(number)
}

// The total for register i: from the node behind the register's own, adds the product at `first + i` if there is one, then
// subtracts the product at `back + i` if there is one. Answers its last node.
fn add_total(
    nodes: &mut Vec<Node>,
    i: usize,
    first: usize,
    back: usize,
    lists: Coefficients,
) -> Result<usize, AllocError>
    requires turn { i < 2 ^ 16 }
    requires places { first + back < 2 ^ 16 }
    ensures { let N = length lists.entry.b.now - 1 in let M = length lists.entry.a.now in IfOk result (λ end. (nodes.new.items ≡ nodes.old.items ++ total_nodes (nat_lt i N) (nat_lt i M) (i + 2) (vec_len nodes.old) (first + i) (back + i)) × (end ≡ total_end (nat_lt i N) (nat_lt i M) (i + 2) (vec_len nodes.old))) }
{
    let behind = i + 2;
    let plus = (i < lists.later().len()).then_some(Node::Sum(behind, first + i));
    let sum = add_if_some(nodes, plus, behind)?;
    let minus = (i < lists.a.len()).then_some(Node::Difference(sum, back + i));
    add_if_some(nodes, minus, sum)
}

// The totals by register, and each register's source: the last node of its total.
pub(crate) fn add_totals(
    nodes: &mut Vec<Node>,
    sources: &mut Vec<usize>,
    first: usize,
    back: usize,
    lists: Coefficients,
) -> Result<(), AllocError>
    requires { first + back < 2 ^ 16 }
    ensures nodes { let N = length lists.entry.b.now - 1 in let M = length lists.entry.a.now in OnOk result (nodes.new.items ≡ nodes.old.items ++ flat_map (totals_of (vec_len nodes.old) first back N M) (range_with_len 0 (max N M))) }
    ensures sources { let N = length lists.entry.b.now - 1 in let M = length lists.entry.a.now in OnOk result (sources.new.items ≡ sources.old.items ++ listed (end_of (vec_len nodes.old) first back N M) (max N M)) }
{
    // A loop over the coefficients' elements with their index, as a rule of the project wants it here.
    for (i, _) in lists.longer().iter().enumerate() {
        let end = add_total(nodes, i, first, back, lists)?;
        sources.push(end)?;
    }
    Ok(())
}
