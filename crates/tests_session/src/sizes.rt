// The largest claims that open: 85 gates in the 31-bit field, 42 in the byte field, 64 rows.
use dense_oracle::DenseOracle;
use gf256::Gf256;
use ledger::SessionFault;
use mersenne31::Mersenne31;
use oracle::Oracle;
use prover::Statement;
use session::Session;
use std::test::Fail;

// What opening a statement answers.
fn opened<O: Oracle>(
    session: &mut Session<O>,
    m: usize,
    n: usize,
    matrix: &[O::Elem],
    vector: &[O::Elem],
) -> Result<(), SessionFault> {
    session.open(Statement {
        m,
        n,
        matrix,
        vector,
    })
}

#[test]
fn prime_gates(rt: HostRuntime) -> Result<(), Fail> {
    let x = [Mersenne31(0)];
    let mut session = Session::new(DenseOracle::new(rt.alloc(), 300)?);
    assert_eq!(rt;
        opened(&mut session, 1, 86, &[Mersenne31(0); 259], &x),
        Err(SessionFault::BadSize)
    );
    assert_eq!(rt;
        opened(&mut session, 1, 85, &[Mersenne31(0); 256], &x),
        Ok(())
    );
    Ok(())
}

#[test]
fn byte_gates(rt: HostRuntime) -> Result<(), Fail> {
    let x = [Gf256(0)];
    let mut session = Session::new(DenseOracle::new(rt.alloc(), 300)?);
    assert_eq!(rt;
        opened(&mut session, 1, 43, &[Gf256(0); 130], &x),
        Err(SessionFault::BadSize)
    );
    assert_eq!(rt; opened(&mut session, 1, 42, &[Gf256(0); 127], &x), Ok(()));
    Ok(())
}

#[test]
fn rows(rt: HostRuntime) -> Result<(), Fail> {
    let mut session = Session::new(DenseOracle::new(rt.alloc(), 400)?);
    assert_eq!(rt;
        opened(&mut session, 65, 1, &[Gf256(0); 260], &[Gf256(0); 65]),
        Err(SessionFault::BadSize)
    );
    assert_eq!(rt;
        opened(&mut session, 64, 1, &[Gf256(0); 256], &[Gf256(0); 64]),
        Ok(())
    );
    Ok(())
}
