use materials::record::Record;
use materials::write::write;
use schedule_text::schedule::schedule;
use std::alloc::{AllocError, Global};
use std::test::Fail;

// "oak panel" with b0 = 8, a1 = -8 and "echo wall" with b0 = 16, a1 = -16, in format 4.4.
const EXAMPLE: &[u8] =
    b"\x00\x02\x00\x00\x00\x0e\x00\x19\x00\x00\x00\x27\x00\x19\x09oak panel1ZW\x04\x04\x01\x01\x00\x00\x00\x08\xff\xff\xff\xf8\x09echo wall1ZW\x04\x04\x01\x01\x00\x00\x00\x10\xff\xff\xff\xf0";

#[test]
fn the_example(rt: HostRuntime) -> Result<(), Fail> {
    let text = schedule(rt.alloc(), EXAMPLE)?;
    assert!(rt;
        text.as_slice()
            == b"materials\t2\noak panel\tfits\t63\t16384\t6\t0\necho wall\tnone\t21\t4\n".as_slice()
    );
    Ok(())
}

#[test]
fn a_refused_file(rt: HostRuntime) -> Result<(), Fail> {
    let text = schedule(rt.alloc(), &[0, 0, 0])?;
    assert!(rt; text.as_slice() == b"refused\t3\n".as_slice());
    Ok(())
}

#[test]
fn no_materials(rt: HostRuntime) -> Result<(), Fail> {
    let text = schedule(rt.alloc(), &[0, 0])?;
    assert!(rt; text.as_slice() == b"materials\t0\n".as_slice());
    Ok(())
}

// A record with a name of its own, the longest there is, and the most coefficients. It is damped: the feedback adds up to 0.78.
fn longest(heap: Global, i: usize) -> Result<Record, AllocError> {
    let mut name = [b'x'; 40];
    name[0] = b'a' + (i / 26 % 26) as u8;
    name[1] = b'a' + (i % 26) as u8;
    Ok(Record {
        name: Vec::from_slice(heap, &name)?,
        form: '1',
        rounding: 'N',
        overflow: 'W',
        whole_bits: 12,
        fraction_bits: 12,
        feedforward: vec![in heap; 100; 9]?,
        feedback: vec![in heap; -400; 8]?,
    })
}

// The file of 512 such records.
fn largest(heap: Global) -> Result<Vec<u8>, Fail> {
    let mut records = Vec::new(heap);
    for i in 0..512 {
        records.push(longest(heap, i)?)?;
    }
    let mut file = vec![in heap; 0u8; 65000]?;
    let size = write(records.as_slice(), &mut file)?;
    file.truncate(size);
    Ok(file)
}

// How many bytes of the text are this one.
fn count(text: &[u8], byte: u8) -> usize {
    text.iter().filter(|b| **b == byte).count()
}

#[test]
fn the_largest_file(rt: HostRuntime) -> Result<(), Fail> {
    let file = largest(rt.alloc())?;
    assert_eq!(rt; file.len(), 62466);
    let text = schedule(rt.alloc(), &file)?;
    assert!(rt; text.starts_with(b"materials\t512\n"));
    assert_eq!(rt; count(&text, b'\n'), 513);
    // One tab in the first line, and five in each line of a material that fits.
    assert_eq!(rt; count(&text, b'\t'), 2561);
    Ok(())
}
