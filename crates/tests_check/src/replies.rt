// The honest prover on two rows and one gate: which cells it fills, and when it refuses.
use crate::claims::{ROWS, claim};
use field::Field;
use mersenne31::{Mersenne31, P};
use prover::{Challenges, Refusal};

const LEFT: [Mersenne31; 1] = [Mersenne31(2)];

const RIGHT: [Mersenne31; 1] = [Mersenne31(3)];

const OUT: [Mersenne31; 1] = [Mersenne31(6)];

// What is answered for a buffer of `room` cells that all hold 9, and the cells then.
fn reply(alpha: u32, room: usize) -> (Result<(), Refusal>, [Mersenne31; 17]) {
    let mut buffer = [Mersenne31(9); 17];
    let at = Challenges {
        alpha: Mersenne31(alpha),
        beta: Mersenne31(4),
        free1: Mersenne31(P + 70),
        free2: Mersenne31(80),
    };
    let claim = claim(2, 1, &ROWS, &[], &LEFT, &RIGHT, &OUT);
    let answer = match buffer.get_mut(0..room) {
        Some(cells) => claim.prove(at, cells),
        None => Ok(()),
    };
    (answer, buffer)
}

#[test]
fn fills_sixteen_cells(rt: HostRuntime) {
    let (answer, cells) = reply(10, 17);
    assert_eq!(rt; answer, Ok(()));
    assert_eq!(rt;
        (cells[0].0, cells[1].0, cells[2].0, cells[3].0),
        (15, 1, 2, 13)
    );
    assert_eq!(rt;
        (cells[4].0, cells[5].0, cells[6].0, cells[7].0),
        (1, 0, 0, 1)
    );
    // c[0] of (15, 1, 2, 13) and (1, 2, 3, 6) is 15·6, over 7^3 - 1 = 342; the free coefficients stand reduced
    assert_eq!(rt; Mersenne31(cells[8].0).times(Mersenne31(342)).0, 90);
    assert_eq!(rt; (cells[11].0, cells[15].0), (70, 80));
    assert_eq!(rt; cells[16].0, 9);
}

#[test]
fn refuses(rt: HostRuntime) {
    let (short, cells) = reply(10, 15);
    assert_eq!(rt; short, Err(Refusal::ShortBuffer));
    assert_eq!(rt; (cells[0].0, cells[14].0), (9, 9));
    let (zero, kept) = reply(P, 17);
    assert_eq!(rt; zero, Err(Refusal::ZeroChallenge));
    assert_eq!(rt; kept[0].0, 9);
}
