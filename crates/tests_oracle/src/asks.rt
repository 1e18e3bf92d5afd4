// What the tests ask of any oracle over the 31-bit field.
use mersenne31::Mersenne31;
use oracle::{Oracle, OracleFault};
use std::process::Abort;

// The word of the value of polynomial k at x.
pub fn word<O: Oracle<Elem = Mersenne31>>(
    oracle: &O,
    k: usize,
    x: u32,
) -> Result<u32, OracleFault> {
    oracle.ask(k, Mersenne31(x)).map(|value| value.0)
}

// What can be seen of an oracle: the free cells, and the values at 2 of the first polynomial, the second and the sixteenth.
pub type Seen = (
    u32,
    Result<u32, OracleFault>,
    Result<u32, OracleFault>,
    Result<u32, OracleFault>,
);

pub fn seen<O: Oracle<Elem = Mersenne31>>(oracle: &O) -> Seen {
    (
        oracle.free(),
        word(oracle, 0, 2),
        word(oracle, 1, 2),
        word(oracle, 15, 2),
    )
}

// Fixes a list, and checks the refusal and that nothing seems to have changed.
pub fn refuses<O: Oracle<Elem = Mersenne31>>(
    rt: &impl Abort,
    oracle: &mut O,
    p: &[Mersenne31],
    fault: OracleFault,
) {
    let before = seen(oracle);
    assert_eq!(rt; oracle.fix(p), Err(fault));
    assert_eq!(rt; seen(oracle), before);
}
