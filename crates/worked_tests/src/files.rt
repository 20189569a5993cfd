//! The files of cases.

use crate::case_file::{Case, cases_of, line_of};
use crate::trying::fault_of;
use std::alloc::{AllocError, Global};
use std::io::{Eprint, Print};
use std::rt::Files;
use std::sync::Wait;
use std::thread::Threads;
use std::{fs, io};

/// Tries the cases of all files of the folder, in the order of their names. Answers whether all is well.
pub fn try_all<R: Files + AllocGlobal + Print + Eprint + Clone + Drop + Threads + Wait + Sync>(
    rt: &R,
    alloc: Global,
) -> io::Result<bool> {
    let mut is_well = true;
    for name in &names(rt, alloc)? {
        is_well = try_file(rt, alloc, name.as_str())? && is_well;
    }
    Ok(is_well)
}

// The names of the files of cases, in order.
fn names<R: Files + AllocGlobal + Clone + Drop>(rt: &R, alloc: Global) -> io::Result<Vec<String>> {
    let mut names = Vec::new(alloc);
    for entry in fs::read_dir(rt, ".")? {
        put_name(&mut names, entry?.file_name())?;
    }
    names.as_mut_slice().sort_unstable();
    Ok(names)
}

fn put_name(names: &mut Vec<String>, name: &str) -> Result<(), AllocError> {
    if name.ends_with(".cases") {
        let alloc = *names.allocator();
        names.push(String::from_str(alloc, name)?)?;
    }
    Ok(())
}

fn try_file<R: Files + AllocGlobal + Print + Eprint + Threads + Wait + Sync>(
    rt: &R,
    alloc: Global,
    name: &str,
) -> io::Result<bool> {
    let text = fs::read_to_string(rt, name)?;
    match cases_of(alloc, text.as_str())? {
        Ok(cases) => try_each(rt, alloc, name, text.as_str(), cases.as_slice()),
        Err(mark) => {
            let line = line_of(text.as_str(), mark);
            eprintln!(rt; "{name}:{line}: no line of this kind may be here")?;
            Ok(false)
        }
    }
}

fn try_each<R: Print + Eprint + Threads + Wait + Sync>(
    rt: &R,
    alloc: Global,
    name: &str,
    text: &str,
    cases: &[Case],
) -> io::Result<bool> {
    let mut failed: u64 = 0;
    for case in cases {
        if !try_case(rt, alloc, name, text, case)? {
            failed = failed.saturating_add(1);
        }
    }
    println!(rt; "{name}: {} cases, {failed} failed", cases.len())?;
    Ok(failed == 0)
}

// Tries a case, and says what is wrong with it. Answers whether nothing is.
fn try_case<R: Eprint + Threads + Wait + Sync>(
    rt: &R,
    alloc: Global,
    name: &str,
    text: &str,
    case: &Case,
) -> io::Result<bool> {
    let Some(fault) = fault_of(rt, alloc, case)? else {
        return Ok(true);
    };
    let line = line_of(text, case.mark);
    eprintln!(rt;
        "{name}:{line}: {}: {}",
        case.command,
        fault.as_str().trim()
    )?;
    Ok(false)
}
