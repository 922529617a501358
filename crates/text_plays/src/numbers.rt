//! Texts of numbers and blocks, each way.

use text_lines::{block_text, number_text, read_block, read_number};

#[test]
fn numbers_have_no_leading_zeros(rt: HostRuntime) {
    let table: [(&[u8], Option<u64>); 10] = [
        (b"0", Some(0)),
        (b"7", Some(7)),
        (b"4096", Some(4096)),
        (b"18446744073709551614", Some(18446744073709551614)),
        (b"99999999999999999999999", Some(18446744073709551615)),
        (b"", None),
        (b"00", None),
        (b"07", None),
        (b"+7", None),
        (b"7a", None),
    ];
    for (text, number) in table {
        assert_eq!(rt; read_number(text), number);
    }
    assert_eq!(rt; number_text(1048576).as_slice(), b"1048576".as_slice());
}

#[test]
fn equal_bytes_are_two_digits(rt: HostRuntime) {
    let equal = [0x4f; 64];
    assert_eq!(rt; block_text(&equal).as_slice(), b"4f".as_slice());
    assert_eq!(rt; read_block(b"4f"), Some(equal));
    assert_eq!(rt; read_block(b"4F"), None);
    assert_eq!(rt; read_block(&[b'4'; 128]), None);
    let mut other = [0; 64];
    other[63] = 1;
    let text = block_text(&other);
    assert_eq!(rt; text.len(), 128);
    assert_eq!(rt; read_block(&text), Some(other));
}
