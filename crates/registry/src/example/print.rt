// Values and bytes in hexadecimal.
ghost use Rattle.std.specs.Prelude.{◌≡◌, map, IfOk};

use gf256::Gf256;
use std::alloc::{AllocError, Global};

// A label and values, on one line.
pub fn print_row(rt: &HostRuntime, label: &str, row: &[Gf256]) -> anyhow::Result<()> {
    rt.print(label)?;
    for x in row {
        print!(rt; " {:02x}", x.0)?;
    }
    rt.println("")?;
    Ok(())
}

// A label and bytes, on one line.
pub fn print_bytes(rt: &HostRuntime, label: &str, bytes: &[u8]) -> anyhow::Result<()> {
    let row = elements(rt.alloc(), bytes)?;
    print_row(rt, label, &row)
}

// The values that bytes stand for.
pub fn elements(heap: Global, bytes: &[u8]) -> Result<Vec<Gf256>, AllocError>
    ensures { IfOk result (λ v. v.items ≡ map (λ b. record { 0 = b }) bytes.now) }
{
    bytes.iter().map(|b| Gf256(*b)).collect(heap)
}
