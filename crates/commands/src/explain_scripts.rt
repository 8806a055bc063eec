//! The files of scripts.

ghost use Rattle.std.specs.Prelude.{◌≡◌, ◌⊎◌, [], ◌∷◌, IfErr, IfOk, MatchOption, OnOk, option_map, string_bytes};
ghost use Rattle.std.specs.List.{flat_map};
ghost use Rattle.findings_text.specs.Witnesses.{script_text};
ghost use Rattle.inputs.specs.Files.{Adds};
ghost use Rattle.commands.specs.ExplainScripts.{findings_files, pair_files, script_file, script_name, scripts_of};

use attacks::{Findings, Pair, Witness};
use findings_text::{Remarks, write_script};
use inputs::{Fault, FileTaker, WriteFault};
use std::alloc::{AllocError, Global};
use std::fmt::Write;

/// The name of the file of a witness, by its number among those of its pair.
fn script_name(
    alloc: Global,
    folder: &str,
    witness: &Witness,
    number: usize,
) -> Result<String, AllocError>
    ensures { IfOk result (λ name. string_bytes name ≡ script_name folder.now witness.now number) }
{
    let (attacker, victim) = (witness.attacker, witness.victim);
    let mut name = String::new(alloc);
    write!(name, "{folder}/")?;
    write!(name, "{attacker}-reaches-{victim}-")?;
    write!(name, "{number:02}.script")?;
    Ok(name)
}

/// The script of a witness.
fn script_of<'a>(alloc: Global, remarks: &Remarks, witness: &Witness) -> Result<Vec<u8>, Fault<'a>>
    ensures ok { IfOk result (λ bytes. bytes.items ≡ script_text remarks.now witness.now) }
    ensures fault { IfErr result (λ f. f ≡ Fault.NoMemory) }
{
    let mut bytes = Vec::new(alloc);
    match write_script(alloc, &mut bytes, remarks, witness) {
        Ok(()) => Ok(bytes),
        // A vector takes no more where memory is refused alone.
        Err(_) => Err(Fault::NoMemory),
    }
}

/// Writes the file of a witness.
fn write_one<'a, T: FileTaker>(
    alloc: Global,
    taker: &mut T,
    folder: &'a str,
    remarks: &Remarks,
    witness: &Witness,
    number: usize,
) -> Result<(), Fault<'a>>
    ensures ok { OnOk result (Adds (T.written taker.old) (T.written taker.new) (script_file folder.entry.now remarks.now witness.now number ∷ [])) }
    ensures fault { IfErr result (λ f. (f ≡ Fault.NoMemory) ⊎ (f ≡ Fault.Folder folder.entry)) }
{
    let name = script_name(alloc, folder, witness, number)?;
    let bytes = script_of(alloc, remarks, witness)?;
    match taker.write_file(&name, &bytes) {
        Ok(()) => Ok(()),
        Err(WriteFault::Unwritable) => Err(Fault::Folder { name: folder }),
        Err(WriteFault::NoMemory) => Err(Fault::NoMemory),
    }
}

/// Writes the files of the witnesses of two domains.
fn write_pair<'a, T: FileTaker>(
    alloc: Global,
    taker: &mut T,
    folder: &'a str,
    remarks: &Remarks,
    pair: &Pair,
) -> Result<(), Fault<'a>>
    ensures ok { OnOk result (Adds (T.written taker.old) (T.written taker.new) (pair_files folder.entry.now remarks.now pair.now)) }
    ensures fault { IfErr result (λ f. (f ≡ Fault.NoMemory) ⊎ (f ≡ Fault.Folder folder.entry)) }
{
    for (index, witness) in pair.witnesses.iter().enumerate() {
        write_one(alloc, taker, folder, remarks, witness, index + 1)?;
    }
    Ok(())
}

fn write_pairs<'a, T: FileTaker>(
    alloc: Global,
    taker: &mut T,
    folder: &'a str,
    remarks: &Remarks,
    pairs: &[Pair],
) -> Result<(), Fault<'a>>
    ensures ok { OnOk result (Adds (T.written taker.old) (T.written taker.new) (flat_map (pair_files folder.entry.now remarks.now) pairs.now)) }
    ensures fault { IfErr result (λ f. (f ≡ Fault.NoMemory) ⊎ (f ≡ Fault.Folder folder.entry)) }
{
    for pair in pairs {
        write_pair(alloc, taker, folder, remarks, pair)?;
    }
    Ok(())
}

fn write_findings<'a, T: FileTaker>(
    alloc: Global,
    taker: &mut T,
    folder: &'a str,
    remarks: &Remarks,
    findings: &Findings,
) -> Result<(), Fault<'a>>
    ensures ok { OnOk result (Adds (T.written taker.old) (T.written taker.new) (findings_files folder.entry.now remarks.now findings.now)) }
    ensures fault { IfErr result (λ f. (f ≡ Fault.NoMemory) ⊎ (f ≡ Fault.Folder folder.entry)) }
{
    match findings {
        Findings::NothingToKeep | Findings::Guarded => Ok(()),
        Findings::Unguarded(pairs) => write_pairs(alloc, taker, folder, remarks, pairs),
    }
}

/// Writes the script of each witness into a file of this folder, if one is named.
pub(crate) fn write_scripts<'a, T: FileTaker>(
    alloc: Global,
    taker: &mut T,
    folder: Option<&'a str>,
    remarks: &Remarks,
    findings: &Findings,
) -> Result<(), Fault<'a>>
    ensures ok { OnOk result (Adds (T.written taker.old) (T.written taker.new) (scripts_of (option_map (λ name. name.now) folder.entry) remarks.now findings.now)) }
    ensures fault { IfErr result (λ f. (f ≡ Fault.NoMemory) ⊎ MatchOption folder.entry ⊥ (λ name. f ≡ Fault.Folder name)) }
{
    match folder {
        Some(folder) => write_findings(alloc, taker, folder, remarks, findings),
        None => Ok(()),
    }
}
