ghost use Rattle.std.specs.Prelude.{◌≡◌, ℕ, ◌^◌, ◌<◌, ◌≤◌, true, [], ◌++◌, length, drop, replicate, pos, None};
ghost use Rattle.kinds.specs.Kinds.{arithmetic_of};
ghost use Rattle.wiring.specs.Checks.{node_fault};
ghost use Rattle.wiring.specs.Runs.{node_value, work, answered, row_after};
ghost use Rattle.wiring.specs.Running.{Small, Named};

use crate::faults::RunFault;
use crate::graph::Node;
use arithmetic::format::Coefficient;
use arithmetic::overflow::Overflow;
use arithmetic::rounding::Rounding;
use kinds::kind::Kind;
use kinds::refusal::Refusal;
use kinds::values::Values;

// Zeros in the first n places.
pub(crate) fn clear<K: Kind, R: Rounding, O: Overflow>(
    values: &Values<K, R, O>,
    row: &mut [K::Value],
    n: usize,
)
    requires { n ≤ length row.old }
    ensures { row.new ≡ replicate n (arithmetic_of K.Kind.model R.Rounding.rule O.Overflow.rule values.now).zero ++ drop n row.old }
{
    let zero = values.kind.zero(&values.setting);
    // The slice's `fill` asks that a clone cannot fail, and no law says so of a kind's values.
    for place in row[..n].iter_mut() {
        *place = zero;
    }
}

// What one node comes to, from the values of the nodes before it.
fn value<K: Kind, R: Rounding, O: Overflow>(
    values: &Values<K, R, O>,
    node: Node,
    coefficients: &[i32],
    registers: &[K::Value],
    working: &[K::Value],
    sample: i32,
) -> Result<K::Value, Refusal>
    requires small { Small coefficients.now }
    requires named { node_fault (length registers.now) (length coefficients.now) (length working.now) node ≡ None }
    ensures { result ≡ node_value (arithmetic_of K.Kind.model R.Rounding.rule O.Overflow.rule values.now) coefficients.now registers.now sample working.now node }
{
    let Values { kind, setting } = values;
    match node {
        Node::Input => kind.sample(setting, sample),
        Node::Zero => Ok(kind.zero(setting)),
        Node::Register(r) => Ok(registers[r]),
        Node::Scale { node, coefficient } => {
            let c = Coefficient {
                value: coefficients[coefficient],
            };
            kind.scale(setting, c, working[node])
        }
        Node::Sum(p, q) => kind.sum(setting, working[p], working[q]),
        Node::Difference(p, q) => kind.difference(setting, working[p], working[q]),
    }
}

// Works the nodes in order, each value into the working row at the node's number; where a node refuses, zeros in all node places.
pub(crate) fn work_nodes<K: Kind, R: Rounding, O: Overflow>(
    values: &Values<K, R, O>,
    nodes: &[Node],
    coefficients: &[i32],
    registers: &[K::Value],
    working: &mut [K::Value],
    sample: i32,
) -> Result<(), RunFault>
    requires small { Small coefficients.now }
    requires named { Named (length registers.now) (length coefficients.now) nodes.now }
    requires room { length nodes.now ≤ length working.old }
    ensures answer { result ≡ answered (work (arithmetic_of K.Kind.model R.Rounding.rule O.Overflow.rule values.now) coefficients.now registers.now sample [] nodes.now) }
    ensures row { working.new ≡ row_after (arithmetic_of K.Kind.model R.Rounding.rule O.Overflow.rule values.now).zero (length nodes.now) working.old (work (arithmetic_of K.Kind.model R.Rounding.rule O.Overflow.rule values.now) coefficients.now registers.now sample [] nodes.now) }
{
    // By the index: a node reads the places before its own.
    for (i, node) in nodes.iter().enumerate() {
        match value(
            values,
            *node,
            coefficients,
            registers,
            &working[0..i],
            sample,
        ) {
            Ok(v) => working[i] = v,
            Err(refusal) => {
                clear(values, working, nodes.len());
                return Err(RunFault::Node(i, refusal));
            }
        }
    }
    Ok(())
}
