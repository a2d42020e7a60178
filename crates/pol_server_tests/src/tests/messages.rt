use pol_http::{cut_messages, missing_bytes};
use std::test::Fail;

/// Bytes, and how many more bytes their first message needs once its head is there.
const MISSING: [(&[u8], Option<usize>); 5] = [
    (b"PUT / HTTP/1.1\r\ncontent-length: 4\r\n\r", None),
    (b"PUT / HTTP/1.1\r\ncontent-length: 4\r\n\r\nP", Some(3)),
    (
        b"PUT / HTTP/1.1\r\ncontent-length: 4\r\n\r\nPAR1GET",
        Some(0),
    ),
    (
        b"PUT / HTTP/1.1\r\ncontent-length: 16777216\r\n\r\n",
        Some(16_777_216),
    ),
    (b"PUT / HTTP/1.1\r\ntransfer-encoding: x\r\n\r\n", None),
];

/// Whether each of these inputs lacks so many bytes.
fn lack(cases: &[(&[u8], Option<usize>)]) -> bool {
    cases
        .iter()
        .all(|(input, missing)| missing_bytes(input) == *missing)
}

#[test]
fn messages_are_cut_and_missing_bytes_are_counted(rt: HostRuntime) -> Result<(), Fail> {
    let lengths = cut_messages(rt.alloc(), b"GET / HTTP/1.1\n\nGET / HTTP/1.0\n\n\nGET")?;
    assert!(rt; lengths.as_slice() == [16, 16].as_slice());
    assert!(rt; lack(&MISSING));
    Ok(())
}
