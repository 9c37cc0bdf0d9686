//! Work for a stopwatch: makes and ends of blocks, or stores and loads, beside a number of live cells and after a
//! number of blocks that are gone.
#![tactic(auto)]

use block_memory::{Address, Blocks, CType, CellValue};
use oc_values::{IntKind, Items, NoMemory};
use std::alloc::Global;
use std::env;
use std::process::ExitCode;

/// How many cells may live, as in a run.
const LIMIT: u32 = 65_536;

/// The work that the words of the command line ask for.
#[derive(Drop)]
struct Work {
    accesses: bool,
    live: u32,
    gone: u64,
    count: u64,
}

fn read_work(rt: &HostRuntime) -> Option<Work> {
    let mut words = env::args(rt).ok()?;
    words.next()?;
    let kind = words.next()?;
    let live = words.next()?.parse::<u32>().ok()?;
    let gone = words.next()?.parse::<u64>().ok()?;
    let count = words.next()?.parse::<u64>().ok()?;
    Some(Work {
        accesses: kind.as_str() == "accesses",
        live,
        gone,
        count,
    })
}

/// Makes this many blocks of one cell.
fn fill<'t>(blocks: &mut Blocks<'t, i128>, ty: &'t CType, live: u32) -> Result<(), NoMemory> {
    for _ in 0..live {
        if blocks.has_size(ty) {
            blocks.make_block(ty, 1, false).map_err(|_| NoMemory)?;
        }
    }
    Ok(())
}

fn make_and_end<'t>(
    blocks: &mut Blocks<'t, i128>,
    ty: &'t CType,
    count: u64,
) -> Result<u64, NoMemory> {
    let mut last = 0;
    for _ in 0..count {
        if blocks.has_size(ty) {
            last = blocks.make_block(ty, 1, false).map_err(|_| NoMemory)?;
            if blocks.is_live(last) {
                blocks.end_block(last);
            }
        }
    }
    Ok(last)
}

fn store_and_load(blocks: &mut Blocks<'_, i128>, live: u32, count: u64) -> u64 {
    let leaf = CType::Int {
        kind: IntKind::I32,
        obliv: true,
    };
    let mut found = 0;
    for turn in 0..count {
        let at = Address::At {
            block: turn % u64::from(live.max(1)),
            offset: 0,
        };
        if blocks.store(at, &leaf, CellValue::Hidden(1)).is_ok() && blocks.load(at, &leaf).is_ok() {
            found = u64::wrapping_add(found, 1);
        }
    }
    found
}

fn perform(alloc: Global, work: &Work) -> Result<u64, NoMemory> {
    let structs = Items::new(alloc);
    let ty = CType::Int {
        kind: IntKind::I32,
        obliv: true,
    };
    let mut blocks = Blocks::new(alloc, &structs, LIMIT)?;
    fill(&mut blocks, &ty, work.live)?;
    make_and_end(&mut blocks, &ty, work.gone)?;
    if work.accesses {
        return Ok(store_and_load(&mut blocks, work.live, work.count));
    }
    make_and_end(&mut blocks, &ty, work.count)
}

fn main(rt: HostRuntime) -> ExitCode {
    let Some(asked) = read_work(&rt) else {
        return match println!(rt; "memory_speed makes|accesses LIVE GONE COUNT") {
            Ok(()) => ExitCode::SUCCESS,
            Err(_) => ExitCode::FAILURE,
        };
    };
    match perform(rt.alloc(), &asked) {
        Ok(done) => match println!(rt; "{done}") {
            Ok(()) => ExitCode::SUCCESS,
            Err(_) => ExitCode::FAILURE,
        },
        Err(_) => ExitCode::FAILURE,
    }
}
