use arithmetic::overflow::Wrap;
use arithmetic::rounding::{Floor, Rounding, TowardZero};
use arithmetic::setting::Setting;
use kinds::refusal::Refusal;
use sheet::figures::{Figures, SheetFault};
use sheet::sheet::sheet;
use std::alloc::{AllocError, Global};
use std::test::Fail;
use wiring::graph::{Filter, Node, Wiring};

// A wall panel in direct form 1: y = b0 × u - a1 × y1. Written out, as in crates/long_rounds: it is what is handed in.
fn panel(heap: Global, list: &[i32]) -> Result<Filter, AllocError> {
    let nodes = [
        Node::Input,
        Node::Register(0),
        Node::Scale {
            node: 0,
            coefficient: 0,
        },
        Node::Scale {
            node: 1,
            coefficient: 1,
        },
        Node::Difference(2, 3),
    ];
    let wiring = Wiring {
        nodes: nodes.to_vec(heap)?,
        coefficients: 2,
        output: 4,
        sources: [4usize].to_vec(heap)?,
    };
    Ok(Filter {
        wiring,
        coefficients: list.to_vec(heap)?,
    })
}

// Three rows with a place more than the panel has registers.
#[derive(Clone, Copy)]
struct Rows {
    peaks: [u32; 2],
    ceilings: [u64; 2],
    band: [u32; 2],
}

const LENT: Rows = Rows {
    peaks: [9, 9],
    ceilings: [9, 9],
    band: [9, 9],
};

// The panel's sheet in format 4.4, into rows of any length.
fn lent_sheet<R: Rounding>(
    heap: Global,
    rounding: R,
    list: &[i32],
    range: i32,
    peaks: &mut [u32],
    ceilings: &mut [u64],
    band: &mut [u32],
) -> Result<Result<Figures, SheetFault>, AllocError> {
    let setting = Setting {
        whole: 4,
        fraction: 4,
        rounding,
        overflow: Wrap,
    };
    Ok(sheet(&setting, panel(heap, list)?, range, peaks, ceilings, band))
}

// The same into the three rows.
fn panel_sheet<R: Rounding>(
    heap: Global,
    rounding: R,
    list: &[i32],
    range: i32,
    rows: &mut Rows,
) -> Result<Result<Figures, SheetFault>, AllocError> {
    lent_sheet(
        heap,
        rounding,
        list,
        range,
        &mut rows.peaks,
        &mut rows.ceilings,
        &mut rows.band,
    )
}

#[test]
fn panel_toward_zero(rt: HostRuntime) -> Result<(), Fail> {
    let mut rows = LENT;
    let figures = panel_sheet(rt.alloc(), TowardZero, &[8, -8], 64, &mut rows)?;
    assert_eq!(rt;
        figures,
        Ok(Figures {
            peak: 63,
            ceiling: 16384,
            count: 6,
            band: 0,
        })
    );
    assert_eq!(rt;
        (rows.peaks, rows.ceilings, rows.band),
        ([63, 9], [16384, 9], [0, 9])
    );
    Ok(())
}

#[test]
fn panel_down(rt: HostRuntime) -> Result<(), Fail> {
    let mut rows = LENT;
    let figures = panel_sheet(rt.alloc(), Floor, &[8, -8], 64, &mut rows)?;
    assert_eq!(rt;
        figures,
        Ok(Figures {
            peak: 64,
            ceiling: 16384,
            count: 6,
            band: 1,
        })
    );
    assert_eq!(rt;
        (rows.peaks, rows.ceilings, rows.band),
        ([64, 9], [16384, 9], [1, 9])
    );
    Ok(())
}

#[test]
fn no_damping_has_no_sheet(rt: HostRuntime) -> Result<(), Fail> {
    let mut rows = LENT;
    let figures = panel_sheet(rt.alloc(), TowardZero, &[16, -16], 1, &mut rows)?;
    assert_eq!(rt; figures, Err(SheetFault::Node(4, Refusal::Peak)));
    assert_eq!(rt;
        (rows.peaks, rows.ceilings, rows.band),
        ([0, 9], [0, 9], [0, 9])
    );
    Ok(())
}

#[test]
fn range_is_a_word_from_zero_up(rt: HostRuntime) -> Result<(), Fail> {
    let heap = rt.alloc();
    let mut rows = LENT;
    assert_eq!(rt;
        panel_sheet(heap, TowardZero, &[8, -8], 128, &mut rows)?,
        Err(SheetFault::Range)
    );
    assert_eq!(rt;
        panel_sheet(heap, TowardZero, &[8, -8], -1, &mut rows)?,
        Err(SheetFault::Range)
    );
    assert_eq!(rt;
        (rows.peaks, rows.ceilings, rows.band),
        ([9, 9], [9, 9], [9, 9])
    );
    assert_eq!(rt;
        panel_sheet(heap, TowardZero, &[8, -8], 0, &mut rows)?,
        Ok(Figures {
            peak: 0,
            ceiling: 16384,
            count: 0,
            band: 0,
        })
    );
    assert_eq!(rt;
        panel_sheet(heap, TowardZero, &[8, -8], 127, &mut rows)?,
        Ok(Figures {
            peak: 125,
            ceiling: 16384,
            count: 7,
            band: 0,
        })
    );
    Ok(())
}

#[test]
fn short_rows_come_before_the_range(rt: HostRuntime) -> Result<(), Fail> {
    let heap = rt.alloc();
    let list = &[8, -8];
    let (mut peaks, mut ceilings, mut band) = ([9u32], [9u64], [9u32]);
    assert_eq!(rt;
        lent_sheet(heap, TowardZero, list, 128, &mut [], &mut [], &mut [])?,
        Err(SheetFault::PeaksRow)
    );
    assert_eq!(rt;
        lent_sheet(heap, TowardZero, list, 128, &mut peaks, &mut [], &mut [])?,
        Err(SheetFault::CeilingsRow)
    );
    assert_eq!(rt;
        lent_sheet(
            heap,
            TowardZero,
            list,
            128,
            &mut peaks,
            &mut ceilings,
            &mut []
        )?,
        Err(SheetFault::BandRow)
    );
    assert_eq!(rt;
        lent_sheet(
            heap,
            TowardZero,
            list,
            128,
            &mut peaks,
            &mut ceilings,
            &mut band
        )?,
        Err(SheetFault::Range)
    );
    assert_eq!(rt; (peaks, ceilings, band), ([9], [9], [9]));
    Ok(())
}
