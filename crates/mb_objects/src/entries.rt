ghost use Rattle.std.specs.Prelude.{◌≡◌, ℕ, ◌+◌, ◌<◌, ◌≤◌, ◌^◌, true, IfOk, length, position, ◌==◌, None, List};
ghost use Rattle.mb_geom.specs.Description.{Description, plain, equations};
ghost use Rattle.mb_life.specs.Life.{Life};
ghost use Rattle.mb_machine.specs.Table.{needed, is_full, life_of, lives_most};
ghost use Rattle.mb_machine.specs.Entries.{entered, with_description, with_entry, with_instance, empty_report};
ghost use Rattle.mb_objects.specs.Need.{IsNeed};

use crate::lives::Lives;
use mb_base::Memory;
use mb_fdt::{FileEntries, FileEntry};
use mb_geom::Desc;
use mb_life::Life;
use mb_machine::{Entered, InstanceReport};
use mb_way::Codes;
use std::alloc::Global;

/// How many lives stand at once at most.
const LIVES_MAX: usize = 1_024;

/// How many bytes the symbols of the lives that were not handed out take at most, and their equations.
const NEEDED_MAX: u64 = 1 << 30;

/// An instance that did nothing yet.
const EMPTY: InstanceReport = InstanceReport {
    started: 0,
    prolonged: 0,
    conflicting: 0,
    refused: 0,
    norow: 0,
    full: 0,
};

/// The bytes that lives need for their symbols and for their equations.
#[derive(Clone, Copy)]
struct Need {
    plain: u64,
    equations: u64,
}

/// What the lives need that were not handed out.
fn needed(lives: &[Life]) -> Need
    requires few { length lives.now ≤ lives_most }
    ensures need { IsNeed result.plain result.equations lives.now }
    ensures small { result.plain ≤ 2 ^ 58 × result.equations ≤ 2 ^ 58 }
{
    let mut need = Need {
        plain: 0,
        equations: 0,
    };
    for life in lives {
        if !life.is_done() {
            need.plain += life.desc().plain();
            need.equations += life.desc().equations();
        }
    }
    need
}

/// Whether a life under this description more would pass a limit.
fn is_full(count: usize, need: &Need, desc: &Desc) -> bool
    requires small { need.now.plain ≤ 2 ^ 58 × need.now.equations ≤ 2 ^ 58 }
    requires few { count ≤ lives_most }
    ensures { (lives : List Life) → length lives ≡ count → IsNeed need.now.plain need.now.equations lives → result ≡ is_full lives desc.now }
{
    count + 1 > LIVES_MAX
        || need.plain + desc.plain() > NEEDED_MAX
        || need.equations + desc.equations() > NEEDED_MAX
}

/// Starts a life of a TOI that has none, unless a block size has no row or a limit would be passed.
fn start_file(
    alloc: Global,
    codes: &mut Codes,
    lives: &mut Lives,
    need: &mut Need,
    expires: u64,
    toi: u128,
    desc: Desc,
) -> Result<Entered, Memory>
    requires new { position (λ life. life.toi == toi) lives.old ≡ None }
    requires need { IsNeed need.old.plain need.old.equations lives.old }
    requires small { need.old.plain ≤ 2 ^ 58 × need.old.equations ≤ 2 ^ 58 }
    ensures started { IfOk result (λ e. with_description codes.old expires toi desc None lives.old ≡ (lives.new, e)) }
    ensures tables { codes.new ≡ codes.old }
    ensures need { IfOk result (λ _. IsNeed need.new.plain need.new.equations lives.new) }
    ensures small { need.new.plain ≤ 2 ^ 58 × need.new.equations ≤ 2 ^ 58 }
{
    if !codes.has_ways(&desc) {
        return Ok(Entered::NoRow);
    }
    if is_full(lives.as_slice().len(), need, &desc) {
        return Ok(Entered::Full);
    }
    let ways = codes.ways(alloc, &desc)?;
    let (plain, equations) = (desc.plain(), desc.equations());
    let life = Life::start(expires, toi, desc, ways);
    lives.start(life)?;
    need.plain += plain;
    need.equations += equations;
    Ok(Entered::Started)
}

/// Starts a life, or prolongs the one that stands under the same description.
fn add_file(
    alloc: Global,
    codes: &mut Codes,
    lives: &mut Lives,
    need: &mut Need,
    expires: u64,
    toi: u128,
    desc: Desc,
) -> Result<Entered, Memory>
    requires need { IsNeed need.old.plain need.old.equations lives.old }
    requires small { need.old.plain ≤ 2 ^ 58 × need.old.equations ≤ 2 ^ 58 }
    ensures added { IfOk result (λ e. with_description codes.old expires toi desc (life_of toi lives.old) lives.old ≡ (lives.new, e)) }
    ensures tables { codes.new ≡ codes.old }
    ensures need { IfOk result (λ _. IsNeed need.new.plain need.new.equations lives.new) }
    ensures small { need.new.plain ≤ 2 ^ 58 × need.new.equations ≤ 2 ^ 58 }
{
    let Some(place) = lives.place(toi) else {
        return start_file(alloc, codes, lives, need, expires, toi, desc);
    };
    if !lives.as_slice()[place].desc().is_same(&desc) {
        return Ok(Entered::Conflicting);
    }
    lives.prolong(place, expires);
    Ok(Entered::Prolonged)
}

/// Acts on an entry of an instance that stands up to `expires`.
#[tactic(auto, unfolding(mb_machine::specs::Entries::with_entry))]
fn add_entry(
    alloc: Global,
    codes: &mut Codes,
    lives: &mut Lives,
    need: &mut Need,
    expires: u64,
    entry: FileEntry,
) -> Result<Entered, Memory>
    requires need { IsNeed need.old.plain need.old.equations lives.old }
    requires small { need.old.plain ≤ 2 ^ 58 × need.old.equations ≤ 2 ^ 58 }
    ensures added { IfOk result (λ e. with_entry codes.old expires lives.old entry.toi entry.entry ≡ (lives.new, e)) }
    ensures tables { codes.new ≡ codes.old }
    ensures need { IfOk result (λ _. IsNeed need.new.plain need.new.equations lives.new) }
    ensures small { need.new.plain ≤ 2 ^ 58 × need.new.equations ≤ 2 ^ 58 }
{
    match (entry.toi, entry.entry) {
        (Some(toi), Ok(desc)) => add_file(alloc, codes, lives, need, expires, toi, desc),
        (_, _) => Ok(Entered::Refused),
    }
}

/// The report with one entry more.
fn entered(report: InstanceReport, entry: Entered) -> InstanceReport
    ensures { result ≡ entered entry report }
{
    let mut report = report;
    match entry {
        Entered::Started => report.started = report.started.saturating_add(1),
        Entered::Prolonged => report.prolonged = report.prolonged.saturating_add(1),
        Entered::Conflicting => report.conflicting = report.conflicting.saturating_add(1),
        Entered::Refused => report.refused = report.refused.saturating_add(1),
        Entered::NoRow => report.norow = report.norow.saturating_add(1),
        Entered::Full => report.full = report.full.saturating_add(1),
    }
    report
}

/// Acts on the entries of an instance that stands up to `expires`, in order. After `Memory` some may have acted.
pub fn add_files(
    alloc: Global,
    codes: &mut Codes,
    lives: &mut Lives,
    expires: u64,
    files: FileEntries,
) -> Result<InstanceReport, Memory>
    ensures added { IfOk result (λ report. with_instance codes.old expires files lives.old ≡ record { lives = lives.new; report = report }) }
    ensures tables { codes.new ≡ codes.old }
{
    let mut need = needed(lives.as_slice());
    let mut report = EMPTY;
    for entry in files.into_vec() {
        report = entered(
            report,
            add_entry(alloc, codes, lives, &mut need, expires, entry)?,
        );
    }
    Ok(report)
}
