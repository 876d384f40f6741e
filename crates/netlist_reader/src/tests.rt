//! Netlists that are read, and the first wrong tokens of some that are none.

use crate::{NetlistFault, read_netlist};
use std::alloc::Global;
use std::test::Fail;
use verilog_lex::tokens;

/// The number of chips of a text, or its wrong token; a text without tokens has none of both.
fn read(alloc: Global, source: &[u8]) -> Result<u64, u32> {
    if source.len() > 1000 {
        return Err(1000);
    }
    let Ok(tokens) = tokens(alloc, source) else {
        return Err(1001);
    };
    match read_netlist(alloc, source, &tokens) {
        Ok(chips) => Ok(chips.len()),
        Err(NetlistFault::Form { token }) => Err(token),
        Err(NetlistFault::NoMemory) => Err(1002),
    }
}

static WHOLE: &[u8] =
    b"module chip0; wire n0; wire n1; wire n2; and g0 (n0, n1, n2); LUT2_8 g1 (n1, n0, n2);
EHOLD r0 (n0); EREG r1 (n0, n1); EREGE r2 (n0, n1, n2); EMEM_1_1_1_1 m0 (n0, n1, n2, n1, n2); EMEM_0_1_0_0 m1 ();
endmodule module \\chip1 ; endmodule";

#[test]
fn netlists_are_read_or_their_token_is_named(rt: HostRuntime) -> Result<(), Fail> {
    let alloc = rt.alloc();
    assert!(rt; read(alloc, WHOLE) == Ok(2));
    assert!(rt; read(alloc, b"") == Ok(0));
    for (source, token) in [
        (b"module chip0; wire n0; LUT1_08 g0 (n0, n0);".as_slice(), 6),
        (b"module chip0; wire n0; LUT1_4 g0 (n0, n0);", 6),
        (b"module chip0; wire n0; LUT3_D8 g0 (n0, n0, n0, n0);", 6),
        (b"module chip0; wire n0; \\and g0 (n0, n0);", 6),
        (b"module chip0; wire n0; not g0 (n0, n0, n0);", 12),
        (b"module chip0; wire n0; EREG r0 (n0);", 10),
        (b"module chip0; wire n0; EREGE r0 (n0, n1, n0);", 11),
        (b"module chip0; wire n00;", 4),
        (b"module chip0; wire n0; EMEM_17_1_1_1 m0 (n0);", 6),
        (b"module chip0; wire n0; EMEM_0_1_0_0 m0 (n0);", 9),
        (b"module chip0; and g0 (n0, n0);", 6),
        (
            b"module chip0; EMEM_0_1_0_0 m0 (); EMEM_0_1_1_1 m1 (n0);",
            11,
        ),
        (b"module chip0; EHOLD r1 (n0);", 4),
        (b"module chip0; endmodule module chip2;", 5),
        (b"module chip0; wire n0;", 6),
    ] {
        assert!(rt;
            read(alloc, source) == Err(token),
            "{}",
            source.escape_ascii()
        );
    }
    Ok(())
}
