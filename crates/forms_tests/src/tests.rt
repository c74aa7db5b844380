use forms::form::{Form, FormFault};
use std::alloc::Global;
use std::process::Abort;
use std::test::Fail;
use wiring::graph::{Filter, Node};

// A coefficient times a node.
fn scale(node: usize, coefficient: usize) -> Node {
    Node::Scale { node, coefficient }
}

// The wiring has just these nodes, this output and these sources.
fn check_laid(rt: &impl Abort, filter: &Filter, nodes: &[Node], output: usize, sources: &[usize]) {
    assert!(rt; filter.wiring.nodes.as_slice() == nodes);
    assert_eq!(rt; filter.wiring.output, output);
    assert!(rt; filter.wiring.sources.as_slice() == sources);
}

// Why no filter of so many coefficients is built.
fn fault(heap: Global, nb: usize, na: usize) -> Result<FormFault, Fail> {
    let b = vec![in heap; 1; nb]?;
    let a = vec![in heap; 1; na]?;
    match Form::Transposed2.build(heap, &b, &a) {
        Ok(_) => Err(Fail::new("built")),
        Err(fault) => Ok(fault),
    }
}

#[test]
fn lengths(rt: HostRuntime) -> Result<(), Fail> {
    let heap = rt.alloc();
    assert_eq!(rt; fault(heap, 0, 0)?, FormFault::Numerator);
    assert_eq!(rt; fault(heap, 10, 9)?, FormFault::Numerator);
    assert_eq!(rt; fault(heap, 9, 9)?, FormFault::Denominator);
    let b = vec![in heap; 1; 9]?;
    let a = vec![in heap; 1; 8]?;
    let filter = Form::Direct1.build(heap, &b, &a)?;
    assert_eq!(rt; filter.wiring.nodes.len(), 50);
    assert_eq!(rt; filter.coefficients.len(), 17);
    Ok(())
}

#[test]
fn direct_form_1(rt: HostRuntime) -> Result<(), Fail> {
    let filter = Form::Direct1.build(rt.alloc(), &[8], &[-8])?;
    let nodes = [
        Node::Input,
        Node::Register(0),
        scale(0, 0),
        scale(1, 1),
        Node::Difference(2, 3),
    ];
    check_laid(&rt, &filter, &nodes, 4, &[4]);
    assert!(rt; filter.coefficients.as_slice() == [8, -8].as_slice());
    Ok(())
}

#[test]
fn direct_form_2(rt: HostRuntime) -> Result<(), Fail> {
    let filter = Form::Direct2.build(rt.alloc(), &[5, 6], &[7])?;
    let nodes = [
        Node::Input,
        Node::Register(0),
        scale(1, 2),
        Node::Difference(0, 2),
        scale(3, 0),
        scale(1, 1),
        Node::Sum(4, 5),
    ];
    check_laid(&rt, &filter, &nodes, 6, &[3]);
    Ok(())
}

#[test]
fn transposed_form_2(rt: HostRuntime) -> Result<(), Fail> {
    let heap = rt.alloc();
    let filter = Form::Transposed2.build(heap, &[1, 2], &[3, 4])?;
    let nodes = [
        Node::Input,
        Node::Register(0),
        Node::Register(1),
        Node::Zero,
        scale(0, 0),
        scale(0, 1),
        Node::Sum(4, 1),
        scale(6, 2),
        scale(6, 3),
        Node::Sum(2, 5),
        Node::Difference(9, 7),
        Node::Difference(3, 8),
    ];
    check_laid(&rt, &filter, &nodes, 6, &[10, 11]);
    let gain = Form::Transposed2.build(heap, &[9], &[])?;
    check_laid(&rt, &gain, &[Node::Input, scale(0, 0)], 1, &[]);
    Ok(())
}
