//! Sums, differences and products of bytes.

use cerco_base::bytes::{add_carry, mul_wide, sub_borrow};

#[test]
fn bytes_carry_and_borrow(rt: HostRuntime) {
    assert!(rt; matches!(add_carry(255, 1, false), (0, true)));
    assert!(rt; matches!(sub_borrow(0, 0, true), (255, true)));
    assert!(rt; matches!(mul_wide(255, 255), (1, 254)));
}
