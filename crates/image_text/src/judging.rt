// The rules that are judged of a whole text, over the disk that holds its objects, and the counts of these.
ghost use Rattle.std.specs.Prelude.{◌≡◌, ◌≤◌, ◌<◌, ◌^◌, ◌||◌, nat_lt, ℕ, pos, None, Some, List, All, IsSome, IsTrue, OnOk, IfErr, length, option_map};
ghost use Rattle.long_names.specs.Names.{is_known};
ghost use Rattle.long_names.specs.declared.object.Rec.{Rec as Spelled};
ghost use Rattle.loom_host.specs.Work.{IsWorkOnly, IsWorkRead};
ghost use Rattle.disk_objects.specs.Calls.{HoldsObjects};
ghost use Rattle.disk_objects.specs.Disk.{disk_held, disk_room};
ghost use Rattle.disk_objects.specs.Function.{counts_of, disk_of};
ghost use Rattle.image_format.specs.declared.head.TheConstants.{MOST_OBJECTS};
ghost use Rattle.image_format.specs.Rules.{break, whole_break, words_in};
ghost use Rattle.image_reader.specs.Frames.{IsDiskFault, IsLoading};
ghost use Rattle.image_reader.specs.Judged.{AreRead, fields_broken, names_missed, words_broken};
ghost use Rattle.image_reader.specs.Loaded.{IsStored};
ghost use Rattle.image_reader.specs.Names.{IsRising};
ghost use Rattle.image_reader.specs.Tally.{IsFresh, Raises, counted};
ghost use Rattle.text_lines.specs.Breaks.{image_of, with_counts};
ghost use Rattle.image_text.specs.Assembled.{IsPartTextFault};
ghost use Rattle.image_text.specs.Inside.{IsJudgedAt, IsTextOfWhole};
ghost use Rattle.image_text.specs.Judged as judged;
ghost use Rattle.image_text.specs.Judged.{HasNonePending, IsPlaced, SetsCount, SetsCounts, line_among, unheld_among};
ghost use Rattle.image_text.specs.Lines.{head_read};
ghost use Rattle.image_text.specs.declared.fault.TextFault.TheVariants as fault;

use crate::fault::TextFault;
use disk_objects::DiskObjects;
use image_format::State;
use image_reader::{LoadFault, Tally, first_unclosed, judge_names};
use long_names::{Name, NameList};
use loom_host::{DiskFault, Host, Role};
use object_record::RecordBuf;
use std::alloc::Global;
use text_lines::Head;

/// The line of a name among those of a tally.
fn line_of(tally: &Tally, name: Name) -> u32
    requires { length tally.now.names ≤ MOST_OBJECTS }
    ensures { result ≡ line_among tally.now.names name }
{
    for i in 0..tally.len() {
        if tally.name(i).get() == name.get() {
            return i as u32 + 2;
        }
    }
    tally.len() as u32 + 2
}

/// A rule that breaks in the line of a name.
fn bad(tally: &Tally, rule: u8, name: Name) -> TextFault
    requires { length tally.now.names ≤ MOST_OBJECTS }
    ensures { result ≡ fault.Bad (line_among tally.now.names name) rule }
{
    TextFault::Bad {
        line: line_of(tally, name),
        rule,
    }
}

/// How many words hold a name.
fn words_of(tally: &Tally, name: Name) -> u64
    ensures { result ≡ judged.words_of tally.now name }
{
    tally.count(name.get()).unwrap_or(0)
}

/// Judges rule 10 over all objects, and counts their words.
fn judge_fields<H: Host>(
    disk: &mut DiskObjects<'_, H>,
    tally: &mut Tally,
    buf: &mut RecordBuf,
) -> Result<(), TextFault>
    requires stands { HoldsObjects H.Host disk.old.host.now disk.old.rest }
    requires held { IsTrue (H.tells Role.Work) → All (λ name. IsSome (disk_of H.Host disk.old.host.now disk.old.rest name)) tally.old.names }
    requires fresh { IsFresh tally.old.names tally.old }
    requires few { length tally.old.names ≤ MOST_OBJECTS }
    ensures ok { (recs : List Spelled) (next : ℕ) → IsTrue (H.tells Role.Work) → AreRead H.Host disk.old.host.now disk.old.rest tally.old.names recs next → OnOk result ((fields_broken recs ≡ None) × Raises (words_in recs) tally.old tally.new) }
    ensures bad { (recs : List Spelled) (next : ℕ) → IsTrue (H.tells Role.Work) → AreRead H.Host disk.old.host.now disk.old.rest tally.old.names recs next → IfErr result (IsPlaced tally.old.names (fields_broken recs)) }
    ensures names { tally.new.names ≡ tally.old.names }
    ensures read { IsWorkRead H.Host disk.old.host.now disk.new.host.now }
    ensures rest { disk.new.rest ≡ disk.old.rest }
    ensures same_host { disk.new.host.ghost_name ≡ disk.old.host.ghost_name }
    ensures rule { IfErr result IsTextOfWhole }
    ensures fault { IfErr result (IsPartTextFault H.Host disk.old.host.now disk.new.host.now) }
{
    match first_unclosed(disk, tally, buf)? {
        Some(name) => Err(bad(tally, 10, name)),
        None => Ok(()),
    }
}

/// Whether a name is known, or a word holds it.
fn is_held(tally: &Tally, name: Name) -> bool
    ensures { result ≡ (is_known name || nat_lt 0 (judged.words_of tally.now name)) }
{
    name.is_known() || words_of(tally, name) > 0
}

/// The first name that no word holds and that isn't known.
fn first_unheld(tally: &Tally) -> Option<Name>
    ensures { result ≡ unheld_among (judged.words_of tally.now) tally.now.names }
{
    for i in 0..tally.len() {
        let name = tally.name(i);
        if !is_held(tally, name) {
            return Some(name);
        }
    }
    None
}

/// Judges rule 11 over all names: each is known, or a word holds it.
fn judge_held(tally: &Tally) -> Result<(), TextFault>
    requires { length tally.now.names ≤ MOST_OBJECTS }
    ensures ok { OnOk result (unheld_among (judged.words_of tally.now) tally.now.names ≡ None) }
    ensures bad { IfErr result (IsPlaced tally.now.names (option_map (break 11) (unheld_among (judged.words_of tally.now) tally.now.names))) }
    ensures rule { IfErr result IsTextOfWhole }
    ensures plain { IfErr result judged.IsTextRule }
{
    match first_unheld(tally) {
        Some(name) => Err(bad(tally, 11, name)),
        None => Ok(()),
    }
}

/// Judges rule 10 over all objects and then 11, and counts their words.
fn judge_words<H: Host>(
    alloc: Global,
    disk: &mut DiskObjects<'_, H>,
    tally: &mut Tally,
) -> Result<(), TextFault>
    requires stands { HoldsObjects H.Host disk.old.host.now disk.old.rest }
    requires held { IsTrue (H.tells Role.Work) → All (λ name. IsSome (disk_of H.Host disk.old.host.now disk.old.rest name)) tally.old.names }
    requires fresh { IsFresh tally.old.names tally.old }
    requires few { length tally.old.names ≤ MOST_OBJECTS }
    ensures ok { (recs : List Spelled) (next : ℕ) → IsTrue (H.tells Role.Work) → AreRead H.Host disk.old.host.now disk.old.rest tally.old.names recs next → OnOk result ((words_broken (with_counts recs) ≡ None) × Raises (words_in recs) tally.old tally.new) }
    ensures bad { (recs : List Spelled) (next : ℕ) → IsTrue (H.tells Role.Work) → AreRead H.Host disk.old.host.now disk.old.rest tally.old.names recs next → IfErr result (IsPlaced tally.old.names (words_broken (with_counts recs))) }
    ensures names { tally.new.names ≡ tally.old.names }
    ensures read { IsWorkRead H.Host disk.old.host.now disk.new.host.now }
    ensures rest { disk.new.rest ≡ disk.old.rest }
    ensures same_host { disk.new.host.ghost_name ≡ disk.old.host.ghost_name }
    ensures rule { IfErr result IsTextOfWhole }
    ensures fault { IfErr result (IsPartTextFault H.Host disk.old.host.now disk.new.host.now) }
{
    let mut buf = RecordBuf::new(alloc)?;
    judge_fields(disk, tally, &mut buf)?;
    judge_held(tally)
}

/// The change that takes a name's count from 0 to this one. It is exact below 2 ^ 63, and every count of an image is far below that.
fn change_of(count: u64) -> i64
    ensures { count < 2 ^ 63 → result ≡ pos count }
{
    count.min(i64::MAX as u64) as i64
}

/// Gives a name its count, which was 0.
fn set_count<H: Host>(
    disk: &mut DiskObjects<'_, H>,
    name: Name,
    count: u64,
) -> Result<(), DiskFault>
    requires none { IsTrue (H.tells Role.Work) → HasNonePending H.Host disk.old.host.now disk.old.rest }
    requires uncounted { IsTrue (H.tells Role.Work) → counts_of H.Host disk.old.host.now disk.old.rest name ≡ Some 0 }
    requires small { IsTrue (H.tells Role.Work) → count < 2 ^ 63 }
    ensures sets { IsTrue (H.tells Role.Work) → OnOk result (SetsCount H.Host disk.old.host.now disk.new.host.now disk.old.rest disk.new.rest name count) }
    ensures held { disk_held disk.new.rest ≡ disk_held disk.old.rest }
    ensures room { disk_room disk.new.rest ≡ disk_room disk.old.rest }
    ensures work { IsWorkOnly H.Host disk.old.host.now disk.new.host.now }
    ensures same_host { disk.new.host.ghost_name ≡ disk.old.host.ghost_name }
    ensures fault { IfErr result (IsDiskFault H.Host disk.old.host.now disk.new.host.now) }
{
    let change = change_of(count);
    disk.add_count(name, change)?;
    Ok(())
}

/// Gives each name its count, which was 0: how many words hold it.
fn set_counts<H: Host>(disk: &mut DiskObjects<'_, H>, tally: &Tally) -> Result<(), DiskFault>
    requires rising { IsRising tally.now.names }
    requires none { IsTrue (H.tells Role.Work) → HasNonePending H.Host disk.old.host.now disk.old.rest }
    requires uncounted { IsTrue (H.tells Role.Work) → All (λ name. counts_of H.Host disk.old.host.now disk.old.rest name ≡ Some 0) tally.now.names }
    requires small { IsTrue (H.tells Role.Work) → (name : ℕ) → judged.words_of tally.now name < 2 ^ 63 }
    ensures sets { IsTrue (H.tells Role.Work) → OnOk result (SetsCounts H.Host disk.old.host.now disk.new.host.now disk.old.rest disk.new.rest (judged.words_of tally.now) tally.now.names) }
    ensures held { disk_held disk.new.rest ≡ disk_held disk.old.rest }
    ensures room { disk_room disk.new.rest ≡ disk_room disk.old.rest }
    ensures work { IsWorkOnly H.Host disk.old.host.now disk.new.host.now }
    ensures same_host { disk.new.host.ghost_name ≡ disk.old.host.ghost_name }
    ensures fault { IfErr result (IsDiskFault H.Host disk.old.host.now disk.new.host.now) }
{
    for i in 0..tally.len() {
        let name = tally.name(i);
        let count = words_of(tally, name);
        set_count(disk, name, count)?;
    }
    Ok(())
}

/// What is missing, without its name.
fn unplaced(fault: LoadFault) -> TextFault
    ensures { result ≡ judged.unplaced fault }
{
    match fault {
        LoadFault::Bad { rule, .. } => TextFault::Bad { line: 0, rule },
        LoadFault::Read { count } => TextFault::Read { count },
        LoadFault::Disk(fault) => TextFault::Disk(fault),
        LoadFault::Memory => TextFault::Memory,
    }
}

/// Judges rule 12 and then 14.
fn judge_missing(tally: &Tally, state: &State) -> Result<(), TextFault>
    ensures ok { OnOk result (names_missed (counted tally.now) state.now ≡ None) }
    ensures bad { (names : List ℕ) → IfErr result (IsPlaced names (names_missed (counted tally.now) state.now)) }
    ensures rule { IfErr result IsTextOfWhole }
    ensures plain { IfErr result judged.IsTextRule }
{
    match judge_names(tally, state) {
        Ok(()) => Ok(()),
        Err(fault) => Err(unplaced(fault)),
    }
}

/// Judges what is told of a whole text: rule 10 over all objects, then 11, then 12 and 14. The disk holds the objects with no count, and
/// after Ok with the number of words that hold their names.
pub(crate) fn judge_text<H: Host>(
    alloc: Global,
    disk: &mut DiskObjects<'_, H>,
    names: NameList,
    head: &Head,
) -> Result<(), TextFault>
    requires few { length names ≤ MOST_OBJECTS }
    requires read { (recs : List Spelled) × AreRead H.Host disk.old.host.now disk.old.rest names recs head.now.next × All (λ (r : Spelled). r.count ≡ 0) recs }
    ensures ok { (recs : List Spelled) → IsTrue (H.tells Role.Work) → AreRead H.Host disk.old.host.now disk.old.rest names recs head.now.next → All (λ (r : Spelled). r.count ≡ 0) recs
        → OnOk result ((whole_break (image_of (head_read head.now) recs) ≡ None) × IsStored H.Host disk.new.host.now disk.new.rest (with_counts recs)) }
    ensures bad { (recs : List Spelled) → IsTrue (H.tells Role.Work) → AreRead H.Host disk.old.host.now disk.old.rest names recs head.now.next → All (λ (r : Spelled). r.count ≡ 0) recs
        → IfErr result (IsJudgedAt (with_counts recs) (whole_break (image_of (head_read head.now) recs))) }
    ensures held { disk_held disk.new.rest ≡ disk_held disk.old.rest }
    ensures room { disk_room disk.new.rest ≡ disk_room disk.old.rest }
    ensures loading { IsLoading H.Host disk.old.host.now disk.new.host.now }
    ensures image { H.roles disk.new.host.now Role.Image ≡ H.roles disk.old.host.now Role.Image }
    ensures same_host { disk.new.host.ghost_name ≡ disk.old.host.ghost_name }
    ensures rule { IfErr result IsTextOfWhole }
    ensures fault { IfErr result (IsPartTextFault H.Host disk.old.host.now disk.new.host.now) }
{
    let mut tally = Tally::new(alloc, names)?;
    judge_words(alloc, disk, &mut tally)?;
    set_counts(disk, &tally)?;
    judge_missing(&tally, &head.state)
}
