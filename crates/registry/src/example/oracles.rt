// The example's polynomials in oracles of both makes.
use anyhow::anyhow;
use dense_oracle::DenseOracle;
use field::Field;
use gf256::Gf256;
use ledger::Transcript;
use oracle::Oracle;
use sparse_oracle::SparseOracle;

// The cells of each oracle of the example.
pub const CELLS: u64 = 700;

// The points at which both are asked.
const POINTS: [Gf256; 3] = [Gf256(0x00), Gf256(0x57), Gf256(0x83)];

// Places the polynomials in an oracle of each make, with the cells that they need and leave, and asks both for values.
pub fn play(rt: &HostRuntime, t: Transcript<'_, Gf256>) -> anyhow::Result<()> {
    let mut dense = DenseOracle::<Gf256>::new(rt.alloc(), CELLS)?;
    let mut sparse = SparseOracle::<Gf256>::new(rt.alloc(), CELLS)?;
    println!(rt; "oracles: {CELLS} cells each; what each polynomial needs, and what is free then")?;
    let (statement, wires, reply) = (t.claim.statement, t.claim.wires, t.reply);
    let polynomials = [
        ("M ", statement.matrix),
        ("x ", statement.vector),
        ("wl", wires.left),
        ("wr", wires.right),
        ("wo", wires.out),
        ("r ", reply.r),
        ("q ", reply.q),
        ("h1", reply.h1),
        ("h2", reply.h2),
    ];
    for (name, p) in polynomials {
        let (a, b) = (fixed(&mut dense, p)?, fixed(&mut sparse, p)?);
        println!(rt;
            "  {name} dense: needs {a:3}, free {:3}   sparse: needs {b:3}, free {:3}",
            dense.free(),
            sparse.free()
        )?;
    }
    compare(rt, &dense, &sparse)
}

// Fixes a polynomial, and answers the cells that it needs.
fn fixed<O: Oracle>(oracle: &mut O, p: &[O::Elem]) -> anyhow::Result<u32> {
    let needed = oracle.needs(p)?;
    oracle.fix(p)?;
    Ok(needed)
}

// Asks both for the value of every polynomial at the points.
fn compare(
    rt: &HostRuntime,
    dense: &DenseOracle<Gf256>,
    sparse: &SparseOracle<Gf256>,
) -> anyhow::Result<()> {
    for x in POINTS {
        print!(rt; "  values at {:02x}:", x.0)?;
        for k in 0..9usize {
            let (a, b) = (dense.ask(k, x)?, sparse.ask(k, x)?);
            if !a.same(b) {
                return Err(anyhow!("the oracles differ"));
            }
            print!(rt; " {:02x}", a.0)?;
        }
        rt.println(", from both")?;
    }
    Ok(())
}
