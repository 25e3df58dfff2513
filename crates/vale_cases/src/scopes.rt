// What the scopes tell of source files.

use anyhow::{Result, bail};
use bstr::ByteSlice;
use name_scopes::{ScopeFault, resolve};
use std::alloc::Global;
use vale_lexer::tokens;
use vale_parser::read_decls;
use vale_syntax::{Decl, Spot, Spotted};

// Adds the declarations of a file.
fn read_file(alloc: Global, decls: &mut Vec<Decl>, file: u32, text: &[u8]) -> Result<()> {
    if text.len() >= 1 << 32 {
        bail!("only shorter texts are files");
    }
    let Ok(scanned) = tokens(alloc, file, text) else {
        bail!("only what has tokens is looked at");
    };
    let Ok(mut read) = read_decls(alloc, scanned.as_slice()) else {
        bail!("only declarations are looked at");
    };
    decls.append(&mut read)?;
    Ok(())
}

// The declarations of files that `#` keeps apart.
fn read_files(alloc: Global, text: &[u8]) -> Result<Vec<Decl>> {
    let mut decls = Vec::new(alloc);
    for (file, part) in text.split_str(b"#").enumerate() {
        read_file(alloc, &mut decls, u32::try_from(file)?, part)?;
    }
    Ok(decls)
}

fn cause_text(cause: ScopeFault) -> &'static str {
    match cause {
        ScopeFault::Unknown => "Unknown",
        ScopeFault::Twice => "Twice",
        ScopeFault::NotBefore => "NotBefore",
        ScopeFault::Reserved => "Reserved",
        ScopeFault::NoExport => "NoExport",
    }
}

fn refusal_text(alloc: Global, who: &[u8], spot: Spot, cause: ScopeFault) -> Result<Vec<u8>> {
    let mut out = String::new(alloc);
    write!(out, "{} {} ", spot.file, spot.at)?;
    if who.is_empty() {
        out.push_str("-")?;
    } else {
        who.to_str_lossy_into(&mut out)?;
    }
    write!(out, " {}", cause_text(cause))?;
    Ok(out.into_bytes())
}

/// What the scopes tell of files that `#` keeps apart.
pub(crate) fn scoped(alloc: Global, text: &[u8]) -> Result<Vec<u8>> {
    let decls = read_files(alloc, text)?;
    match resolve(alloc, decls.as_slice()) {
        Ok(_) => Ok(Vec::from_slice(alloc, b"bound".as_slice())?),
        Err(Spotted::Refused { who, spot, cause }) => {
            refusal_text(alloc, who.as_bytes(), spot, cause)
        }
        Err(Spotted::NoMemory) => bail!("memory ran out"),
    }
}
