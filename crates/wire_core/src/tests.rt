//! Fields at the edges of their ranges.

use super::*;
use price_core::OptionalPrice;

/// The eight bytes of a number, behind one other byte.
fn behind_one(n: u64) -> [u8; 9] {
    let mut body = [7; 9];
    body[1..].copy_from_slice(&n.to_be_bytes());
    body
}

#[test]
fn numbers_begin_with_their_highest_byte(rt: HostRuntime) {
    let body = [9, 1, 2, 3, 4, 5, 6, 7, 8];
    assert!(rt; u16_at(&body, 1) == 0x0102);
    assert!(rt; u32_at(&body, 1) == 0x0102_0304);
    assert!(rt; u64_at(&body, 1) == 0x0102_0304_0506_0708);
}

#[test]
fn fields_stand_in_their_ranges(rt: HostRuntime) {
    for (n, is_moment, is_price) in [
        (0, true, false),
        (1, true, true),
        (99_999_999_999, true, true),
        (100_000_000_000, true, false),
        (86_399_999_999_999, true, false),
        (86_400_000_000_000, false, false),
    ] {
        let body = behind_one(n);
        let optional = optional_price_at(&body, 1);
        assert!(rt; moment_at(&body, 1).is_some() == is_moment, "of {n}");
        assert!(rt; price_at(&body, 1).is_some() == is_price, "of {n}");
        assert!(rt; optional.is_some() == (is_price || n == 0), "of {n}");
        assert!(rt; optional.map_or(n, OptionalPrice::units) == n, "of {n}");
    }
}

#[test]
fn index_values_stand_in_their_range(rt: HostRuntime) {
    for (n, is_index) in [
        (0u32, false),
        (1, true),
        (99_999_999, true),
        (100_000_000, false),
    ] {
        assert!(rt;
            index_at(&n.to_be_bytes(), 0).is_some() == is_index,
            "of {n}"
        );
    }
}

#[test]
fn names_are_visible_characters_and_then_zeros(rt: HostRuntime) {
    for (name, is_name) in [
        (b"A\0\0\0\0\0\0\0", true),
        (b"ABCDEFGH", true),
        (b"!~\0\0\0\0\0\0", true),
        (b"\0\0\0\0\0\0\0\0", false),
        (b"A\0B\0\0\0\0\0", false),
        (b"\0ABC\0\0\0\0", false),
        (b"A B\0\0\0\0\0", false),
        (b"ABC\x7f\0\0\0\0", false),
    ] {
        assert!(rt; name_at(name, 0) == is_name.then_some(*name));
    }
}

#[test]
fn what_is_put_stands_at_its_offset(rt: HostRuntime) {
    let mut buffer = [0xee; 64];
    assert!(rt; put(&mut buffer, 1, &[1, 2]) == 3);
    assert!(rt; put_u16(&mut buffer, 3, 0x0304) == 5);
    assert!(rt; put_u32(&mut buffer, 5, 0x0506_0708) == 9);
    assert!(rt; put_u64(&mut buffer, 9, 0x090a_0b0c_0d0e_0f10) == 17);
    for (i, byte) in buffer.iter().enumerate() {
        let want = if 1 <= i && i < 17 { i as u8 } else { 0xee };
        assert!(rt; *byte == want, "at {i}");
    }
}
