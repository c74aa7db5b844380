use console_text::halt::Halt;
use console_text::session::session;
use std::test::Fail;

// "oak panel" with b0 = 8, a1 = -8 and "echo wall" with b0 = 16, a1 = -16, in format 4.4.
const EXAMPLE: &[u8] =
    b"\x00\x02\x00\x00\x00\x0e\x00\x19\x00\x00\x00\x27\x00\x19\x09oak panel1ZW\x04\x04\x01\x01\x00\x00\x00\x08\xff\xff\xff\xf8\x09echo wall1ZW\x04\x04\x01\x01\x00\x00\x00\x10\xff\xff\xff\xf0";

// The text of a session on the example file.
fn text(rt: &HostRuntime, name: &str, kind: &str, input: &[u8]) -> Result<String, Fail> {
    Ok(session(rt.alloc(), EXAMPLE, name.as_bytes(), kind, input)?)
}

#[test]
fn unread_lines_count(rt: HostRuntime) -> Result<(), Fail> {
    let text = text(&rt, "oak panel", "word", b"feed 64\n\nfeed +1\nswap\n")?;
    assert!(rt;
        text.as_str()
            == "opened\tword\twatch\t64\t6\nfed\t32\tsounding\nunread\t2\nunread\t3\nrefused\t17\t-\tsounding\n"
    );
    Ok(())
}

#[test]
fn a_last_line_without_a_line_feed(rt: HostRuntime) -> Result<(), Fail> {
    let text = text(&rt, "echo wall", "word", b"\nhush")?;
    assert!(rt; text.as_str() == "opened\tword\twatch\tnone\nunread\t1\nhushed\tnone\n");
    Ok(())
}

#[test]
fn a_line_that_is_no_text(rt: HostRuntime) -> Result<(), Fail> {
    let text = text(&rt, "echo wall", "word", b"feed \xff\n")?;
    assert!(rt; text.as_str() == "opened\tword\twatch\tnone\nunread\t1\n");
    Ok(())
}

// The number by which a session is refused, or none.
fn refused(rt: &HostRuntime, file: &[u8], name: &str) -> Option<u32> {
    match session(rt.alloc(), file, name.as_bytes(), "word", b"hush\n") {
        Err(Halt::Refused(number)) => Some(number),
        _ => None,
    }
}

#[test]
fn refusals(rt: HostRuntime) {
    assert_eq!(rt; refused(&rt, EXAMPLE, "oak pane"), Some(11));
    assert_eq!(rt; refused(&rt, &[0], "oak panel"), Some(1));
    assert_eq!(rt; refused(&rt, &[0, 0, 0], "oak panel"), Some(3));
}
