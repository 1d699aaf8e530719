//! Reads a frame file from standard input, and prints its sample, or its fault.
#![tactic(auto)]

mod serving;
#[cfg(test)]
mod tests;

use serving::serve;
use std::io;

fn main(rt: HostRuntime) -> anyhow::Result<()> {
    let mut out = io::writer(&rt);
    serve(rt.alloc(), rt.stdin(), &mut out)?;
    Ok(())
}
