//! Cases of sheets.
use crate::fault::Fault;
use crate::numbers::{read_length, read_list, read_number};
use crate::settings::Chosen;
use crate::show::{List, Refused};
use crate::wirings::read_wiring;
use sheet::figures::{Figures, SheetFault};
use sheet::sheet::sheet;
use std::alloc::Global;
use wiring::graph::Filter;

// What each place of a row holds before the call.
const BEFORE: u8 = 7;

// The three rows that a sheet is written to.
#[derive(Drop)]
struct Rows {
    peaks: Vec<u32>,
    ceilings: Vec<u64>,
    band: Vec<u32>,
}

// Rows of the three lengths of a field.
fn read_rows(heap: Global, text: &str) -> Result<Rows, Fault> {
    let parts: Vec<&str> = text.split(',').collect(heap)?;
    let [peaks, ceilings, band] = parts.as_slice() else {
        return Err(Fault::Unread);
    };
    Ok(Rows {
        peaks: vec![in heap; u32::from(BEFORE); read_length(peaks)?]?,
        ceilings: vec![in heap; u64::from(BEFORE); read_length(ceilings)?]?,
        band: vec![in heap; u32::from(BEFORE); read_length(band)?]?,
    })
}

// The figures, or the number of the refusal and the node, where one is told.
fn print_verdict(rt: &HostRuntime, answer: Result<Figures, SheetFault>) -> Result<(), Fault> {
    match answer {
        Ok(figures) => print!(rt;
            "fits {} {} {} {}",
            figures.peak, figures.ceiling, figures.count, figures.band
        )?,
        Err(fault) => print!(rt; "{}", Refused::from(fault))?,
    }
    Ok(())
}

/// The sheet of a wiring with its coefficients, and the rows after the call.
pub fn print_sheet(rt: &HostRuntime, setting: Chosen, fields: &[&str]) -> Result<(), Fault> {
    let heap = rt.alloc();
    let [range, rows, wiring, coefficients] = fields else {
        return Err(Fault::Unread);
    };
    let range = read_number(range)?;
    let mut rows = read_rows(heap, rows)?;
    let filter = Filter {
        wiring: read_wiring(heap, wiring)?,
        coefficients: read_list(heap, coefficients)?,
    };
    let answer = sheet(
        &setting,
        filter,
        range,
        &mut rows.peaks,
        &mut rows.ceilings,
        &mut rows.band,
    );
    print_verdict(rt, answer)?;
    println!(rt;
        " {} {} {}",
        List(rows.peaks.as_slice()),
        List(rows.ceilings.as_slice()),
        List(rows.band.as_slice())
    )?;
    Ok(())
}
