// The rules that are judged of a whole image, over the disk that holds its objects.
ghost use Rattle.std.specs.Prelude.{◌≡◌, ◌+◌, ◌-◌, ◌<◌, ◌^◌, ℕ, List, None, Some, IsSome, IsTrue, All, IfOk, IfErr, OnOk, length, option_map};
ghost use Rattle.long_names.specs.declared.limits.TheConstants.{MOST_FIELDS};
ghost use Rattle.long_names.specs.declared.object.Object.{Object};
ghost use Rattle.long_names.specs.declared.object.Rec.{Rec as Spelled};
ghost use Rattle.disk_objects.specs.Calls.{HoldsObjects};
ghost use Rattle.disk_objects.specs.Function.{disk_of};
ghost use Rattle.loom_host.specs.Work.{IsWorkRead};
ghost use Rattle.loom_host.specs.declared.outside.DiskFault.TheVariants as disk_fault;
ghost use Rattle.image_format.specs.Rules.{break, first_failing, is_counted, words_in};
ghost use Rattle.image_reader.specs.Frames.{IsDiskFault, IsPartFault};
ghost use Rattle.image_reader.specs.Inside.{IsRuleFault};
ghost use Rattle.image_reader.specs.Judged.{AreRead, AreStated, IsJudged, IsOfWhole, Unclosed, broken_in, counts_broken, fields_broken, lost_in, missing_among, names_missed, words_broken};
ghost use Rattle.image_reader.specs.Loaded.{stated_by};
ghost use Rattle.image_reader.specs.Names.{IsRising};
ghost use Rattle.image_reader.specs.Tally.{Counts, IsFresh, Raises, HasRoom, counted};
ghost use Rattle.long_names.specs.Names.{known_names};
ghost use Rattle.image_reader.specs.declared.fault.LoadFault.TheVariants as fault;
ghost use Rattle.image_reader.specs.declared.tally.Tally.{Tally as Counted};

use crate::fault::LoadFault;
use crate::records::Listed;
use crate::tally::Tally;
use disk_objects::DiskObjects;
use image_format::State;
use long_names::Name;
use loom_host::{DiskFault, Host, Role};
use object_record::RecordBuf;
use std::alloc::Global;

/// A name that was put to the disk, and of which it tells no record.
fn lost(name: Name) -> DiskFault
    ensures { result ≡ disk_fault.Damaged (2 ^ 64 - 1) name }
{
    DiskFault::Damaged {
        place: u64::MAX,
        name: name.get(),
    }
}

/// A rule that breaks at a name.
fn bad(rule: u8, name: u32) -> LoadFault
    ensures { result ≡ fault.Bad rule name }
{
    LoadFault::Bad {
        rule,
        place: name as u64,
    }
}

/// Counts the words of a name's object. False where one is a name that is no object's.
fn count_object<H: Host>(
    disk: &mut DiskObjects<'_, H>,
    name: Name,
    tally: &mut Tally,
    buf: &mut RecordBuf,
) -> Result<bool, DiskFault>
    requires stands { HoldsObjects H.Host disk.old.host.now disk.old.rest }
    requires held { IsTrue (H.tells Role.Work) → IsSome (disk_of H.Host disk.old.host.now disk.old.rest name) }
    requires room { HasRoom (MOST_FIELDS + 1) tally.old }
    ensures counts { (o : Object) → IsTrue (H.tells Role.Work) → disk_of H.Host disk.old.host.now disk.old.rest name ≡ Some o → IfOk result (Counts o tally.old tally.new) }
    ensures room { (words : ℕ) → HasRoom (words + (MOST_FIELDS + 1)) tally.old → IfOk result (λ closed. IsTrue closed → HasRoom words tally.new) }
    ensures names { tally.new.names ≡ tally.old.names }
    ensures read { IsWorkRead H.Host disk.old.host.now disk.new.host.now }
    ensures rest { disk.new.rest ≡ disk.old.rest }
    ensures same_host { disk.new.host.ghost_name ≡ disk.old.host.ghost_name }
    ensures fault { IfErr result (IsDiskFault H.Host disk.old.host.now disk.new.host.now) }
{
    if !disk.get(name, buf)? {
        return Err(lost(name));
    }
    Ok(tally.count_object(buf))
}

/// Counts the words of all objects, until one is a name that is no object's: the name of the object that holds it is the answer.
pub fn first_unclosed<H: Host>(
    disk: &mut DiskObjects<'_, H>,
    tally: &mut Tally,
    buf: &mut RecordBuf,
) -> Result<Option<Name>, DiskFault>
    requires stands { HoldsObjects H.Host disk.old.host.now disk.old.rest }
    requires held { IsTrue (H.tells Role.Work) → All (λ name. IsSome (disk_of H.Host disk.old.host.now disk.old.rest name)) tally.old.names }
    requires fresh { IsFresh tally.old.names tally.old }
    requires few { length tally.old.names < 2 ^ 32 }
    ensures unclosed { (recs : List Spelled) (next : ℕ) → IsTrue (H.tells Role.Work) → AreRead H.Host disk.old.host.now disk.old.rest tally.old.names recs next → IfOk result (Unclosed recs tally.old tally.new) }
    ensures names { tally.new.names ≡ tally.old.names }
    ensures read { IsWorkRead H.Host disk.old.host.now disk.new.host.now }
    ensures rest { disk.new.rest ≡ disk.old.rest }
    ensures same_host { disk.new.host.ghost_name ≡ disk.old.host.ghost_name }
    ensures fault { IfErr result (IsDiskFault H.Host disk.old.host.now disk.new.host.now) }
{
    for i in 0..tally.len() {
        let name = tally.name(i);
        if !count_object(disk, name, tally, buf)? {
            return Ok(Some(name));
        }
    }
    Ok(None)
}

/// The first name whose stated count isn't exact, or that is held by nothing and isn't known.
fn first_miscounted(tally: &Tally, stated: &[u64]) -> Option<Name>
    requires beside { length stated.now ≡ length tally.now.names }
    ensures miscounted { (recs : List Spelled) (next : ℕ) (old : Counted) → AreStated tally.now.names stated.now recs next → IsFresh tally.now.names old → Raises (words_in recs) old tally.now →
        option_map (break 11) result ≡ first_failing 11 (is_counted (words_in recs)) recs }
{
    for i in 0..tally.len() {
        let name = tally.name(i);
        if !tally.is_exact(i, stated[i]) {
            return Some(name);
        }
    }
    None
}

/// Judges rule 10 over all objects, and counts their words.
fn judge_fields<H: Host>(
    disk: &mut DiskObjects<'_, H>,
    tally: &mut Tally,
    buf: &mut RecordBuf,
) -> Result<(), LoadFault>
    requires stands { HoldsObjects H.Host disk.old.host.now disk.old.rest }
    requires held { IsTrue (H.tells Role.Work) → All (λ name. IsSome (disk_of H.Host disk.old.host.now disk.old.rest name)) tally.old.names }
    requires fresh { IsFresh tally.old.names tally.old }
    requires few { length tally.old.names < 2 ^ 32 }
    ensures ok { (recs : List Spelled) (next : ℕ) → IsTrue (H.tells Role.Work) → AreRead H.Host disk.old.host.now disk.old.rest tally.old.names recs next → OnOk result ((fields_broken recs ≡ None) × Raises (words_in recs) tally.old tally.new) }
    ensures bad { (recs : List Spelled) (next : ℕ) → IsTrue (H.tells Role.Work) → AreRead H.Host disk.old.host.now disk.old.rest tally.old.names recs next → IfErr result (IsJudged (fields_broken recs)) }
    ensures names { tally.new.names ≡ tally.old.names }
    ensures read { IsWorkRead H.Host disk.old.host.now disk.new.host.now }
    ensures rest { disk.new.rest ≡ disk.old.rest }
    ensures same_host { disk.new.host.ghost_name ≡ disk.old.host.ghost_name }
    ensures rule { IfErr result IsOfWhole }
    ensures fault { IfErr result (IsPartFault H.Host disk.old.host.now disk.new.host.now) }
{
    match first_unclosed(disk, tally, buf)? {
        Some(name) => Err(bad(10, name.get())),
        None => Ok(()),
    }
}

/// Judges rule 11 over all objects.
fn judge_counts(tally: &Tally, stated: &[u64]) -> Result<(), LoadFault>
    requires beside { length stated.now ≡ length tally.now.names }
    ensures ok { (recs : List Spelled) (next : ℕ) (old : Counted) → AreStated tally.now.names stated.now recs next → IsFresh tally.now.names old → Raises (words_in recs) old tally.now →
        OnOk result (counts_broken recs ≡ None) }
    ensures bad { (recs : List Spelled) (next : ℕ) (old : Counted) → AreStated tally.now.names stated.now recs next → IsFresh tally.now.names old → Raises (words_in recs) old tally.now →
        IfErr result (IsJudged (counts_broken recs)) }
    ensures rule { IfErr result IsOfWhole }
    ensures fault { IfErr result IsRuleFault }
{
    match first_miscounted(tally, stated) {
        Some(name) => Err(bad(11, name.get())),
        None => Ok(()),
    }
}

/// Judges rule 12: the known objects are there.
fn judge_known(tally: &Tally) -> Result<(), LoadFault>
    ensures ok { OnOk result (missing_among (counted tally.now) known_names ≡ None) }
    ensures bad { IfErr result (IsJudged (option_map (break 12) (missing_among (counted tally.now) known_names))) }
    ensures rule { IfErr result IsOfWhole }
    ensures fault { IfErr result IsRuleFault }
{
    match tally.first_missing() {
        Some(name) => Err(bad(12, name.get())),
        None => Ok(()),
    }
}

/// Judges rule 14: the objects that the state names are there.
fn judge_state(tally: &Tally, state: &State) -> Result<(), LoadFault>
    ensures ok { OnOk result (lost_in (counted tally.now) state.now ≡ None) }
    ensures bad { IfErr result (IsJudged (option_map (break 14) (lost_in (counted tally.now) state.now))) }
    ensures rule { IfErr result IsOfWhole }
    ensures fault { IfErr result IsRuleFault }
{
    match tally.first_lost(state) {
        Some(word) => Err(bad(14, word)),
        None => Ok(()),
    }
}

/// Judges rule 12 and then 14.
pub fn judge_names(tally: &Tally, state: &State) -> Result<(), LoadFault>
    ensures ok { OnOk result (names_missed (counted tally.now) state.now ≡ None) }
    ensures bad { IfErr result (IsJudged (names_missed (counted tally.now) state.now)) }
    ensures rule { IfErr result IsOfWhole }
    ensures fault { IfErr result IsRuleFault }
{
    judge_known(tally)?;
    judge_state(tally, state)
}

/// Judges rule 10 over all objects and then 11, and counts their words.
fn judge_words<H: Host>(
    disk: &mut DiskObjects<'_, H>,
    tally: &mut Tally,
    stated: &[u64],
    buf: &mut RecordBuf,
) -> Result<(), LoadFault>
    requires stands { HoldsObjects H.Host disk.old.host.now disk.old.rest }
    requires held { IsTrue (H.tells Role.Work) → All (λ name. IsSome (disk_of H.Host disk.old.host.now disk.old.rest name)) tally.old.names }
    requires fresh { IsFresh tally.old.names tally.old }
    requires few { length tally.old.names < 2 ^ 32 }
    requires beside { length stated.now ≡ length tally.old.names }
    ensures ok { (recs : List Spelled) (next : ℕ) → IsTrue (H.tells Role.Work) → AreRead H.Host disk.old.host.now disk.old.rest tally.old.names recs next → stated.now ≡ stated_by recs → OnOk result ((words_broken recs ≡ None) × Raises (words_in recs) tally.old tally.new) }
    ensures bad { (recs : List Spelled) (next : ℕ) → IsTrue (H.tells Role.Work) → AreRead H.Host disk.old.host.now disk.old.rest tally.old.names recs next → stated.now ≡ stated_by recs → IfErr result (IsJudged (words_broken recs)) }
    ensures read { IsWorkRead H.Host disk.old.host.now disk.new.host.now }
    ensures rest { disk.new.rest ≡ disk.old.rest }
    ensures same_host { disk.new.host.ghost_name ≡ disk.old.host.ghost_name }
    ensures rule { IfErr result IsOfWhole }
    ensures fault { IfErr result (IsPartFault H.Host disk.old.host.now disk.new.host.now) }
{
    judge_fields(disk, tally, buf)?;
    judge_counts(tally, stated)
}

/// Judges what is told of a whole image: rule 10 over all objects, then 11, then 12 and 14. The disk holds the records, and stays as it
/// is.
pub(crate) fn judge<H: Host>(
    alloc: Global,
    disk: &mut DiskObjects<'_, H>,
    listed: Listed,
    state: &State,
) -> Result<(), LoadFault>
    requires rising { IsRising listed.names }
    requires few { length listed.names < 2 ^ 32 }
    requires beside { length listed.stated.items ≡ length listed.names }
    requires read { (recs : List Spelled) × (next : ℕ) × AreRead H.Host disk.old.host.now disk.old.rest listed.names recs next }
    ensures ok { (recs : List Spelled) (next : ℕ) → IsTrue (H.tells Role.Work) → AreRead H.Host disk.old.host.now disk.old.rest listed.names recs next → listed.stated.items ≡ stated_by recs → OnOk result (broken_in recs state.now ≡ None) }
    ensures bad { (recs : List Spelled) (next : ℕ) → IsTrue (H.tells Role.Work) → AreRead H.Host disk.old.host.now disk.old.rest listed.names recs next → listed.stated.items ≡ stated_by recs → IfErr result (IsJudged (broken_in recs state.now)) }
    ensures read { IsWorkRead H.Host disk.old.host.now disk.new.host.now }
    ensures rest { disk.new.rest ≡ disk.old.rest }
    ensures same_host { disk.new.host.ghost_name ≡ disk.old.host.ghost_name }
    ensures rule { IfErr result IsOfWhole }
    ensures fault { IfErr result (IsPartFault H.Host disk.old.host.now disk.new.host.now) }
{
    let mut buf = RecordBuf::new(alloc)?;
    let Listed { names, stated } = listed;
    let mut tally = Tally::new(alloc, names)?;
    judge_words(disk, &mut tally, &stated, &mut buf)?;
    judge_names(&tally, state)
}
