ghost use Rattle.std.specs.Prelude.{◌≡◌, ◌≤◌, IfOk, IfSome, OnOk, length};
ghost use Rattle.pol_journal.specs.Journal.{IsReady};

use pol_disk::{Content, Disk, FileDisk, HollowDisk, MemoryDisk};
use pol_journal::{Journal, JournalRefused, Kind};
use pol_wire::Failed;
use std::alloc::Global;
use std::fs;
use std::rt::Files;
use std::test::Fail;

// A record's body, and the place of its gate.
type Known = (&'static [u8], u64);

// The first gate stands behind the header's 64 bytes, and each other behind a gate, eight bytes of length and a body.
const RECORDS: [Known; 3] = [(b"ab", 64), (b"", 75), (b"c", 84)];

// A disk of these bytes, whose calls of these numbers are to fail.
fn disk_of(alloc: Global, bytes: &[u8], failing: &[u64]) -> Option<MemoryDisk>
    ensures { IfSome result (λ disk. length disk.past ≡ 0) }
{
    let bytes = Vec::from_slice(alloc, bytes).ok()?;
    let failing = Vec::from_slice(alloc, failing).ok()?;
    MemoryDisk::new(alloc, bytes, failing).ok()
}

// A journal just made, without records.
fn begun<D: Disk>(disk: D, kind: Kind) -> Result<Journal<D>, (D, JournalRefused)>
    ensures { IfOk result IsReady }
{
    Journal::fresh(disk, kind, &[0])
}

// How many records a journal just opened has, where they are the first of the known ones and stand at their gates.
fn count_left<D: Disk>(
    alloc: Global,
    journal: &mut Journal<D>,
    known: &[Known],
) -> Result<Option<usize>, JournalRefused> {
    if journal.last_gate() != 64 {
        return Ok(None);
    }
    for count in 0..known.len() {
        let Some(body) = journal.next_record(alloc)? else {
            return Ok(Some(count));
        };
        let (want, gate) = known[count];
        if body.as_slice() != want || journal.last_gate() != gate {
            return Ok(None);
        }
    }
    match journal.next_record(alloc)? {
        Some(_) => Ok(None),
        None => Ok(Some(known.len())),
    }
}

// How many records a disk's bytes stand for, where they are the first of the known ones.
fn count_of<D: Disk + Drop>(
    alloc: Global,
    disk: D,
    kind: Kind,
    known: &[Known],
) -> Result<Option<usize>, JournalRefused> {
    match Journal::open(disk, kind) {
        Ok(mut journal) => count_left(alloc, &mut journal, known),
        Err((_, refused)) => Err(refused),
    }
}

// Appends, and after a failure repairs and appends again.
fn append_twice<D: Disk>(journal: &mut Journal<D>, body: &[u8]) -> Result<(), JournalRefused>
    requires { IsReady journal.old }
    ensures { OnOk result (IsReady journal.new) }
{
    match journal.append(body) {
        Err(JournalRefused::Unknown) => {}
        answer => return answer,
    }
    journal.repair()?;
    journal.append(body)
}

fn append_all<D: Disk>(journal: &mut Journal<D>) -> Result<(), JournalRefused>
    requires { IsReady journal.old }
    ensures { OnOk result (IsReady journal.new) }
{
    append_twice(journal, RECORDS[0].0)?;
    append_twice(journal, RECORDS[1].0)?;
    append_twice(journal, RECORDS[2].0)
}

// Makes a journal and appends the three bodies. It hands the disk back with why it stopped.
fn written<D: Disk>(disk: D, kind: Kind) -> (D, Result<(), JournalRefused>) {
    match begun(disk, kind) {
        Ok(mut journal) => {
            let answer = append_all(&mut journal);
            (journal.close(), answer)
        }
        Err((disk, refused)) => (disk, Err(refused)),
    }
}

// How many of the bodies bytes stand for, and one more, or 0 where they are no journal. None where they are another.
fn rank_of(alloc: Global, bytes: &[u8]) -> Option<usize> {
    let disk = disk_of(alloc, bytes, &[])?;
    match count_of(alloc, disk, Kind::Objects, &RECORDS) {
        Ok(count) => count?.checked_add(1),
        Err(JournalRefused::NotAJournal) => Some(0),
        Err(_) => None,
    }
}

// The least and the greatest rank of images.
type Ranks = (usize, usize);

// These ranks with that of the image that has these bytes where a crash may leave any, where there is one of this
// length.
fn ranks_with(alloc: Global, content: &Content, ranks: Ranks, filling: &[u8]) -> Option<Ranks> {
    if filling.len() < content.shortest_image() || filling.len() > content.longest_image() {
        return Some(ranks);
    }
    let image = content.image(alloc, filling).ok()?;
    let rank = rank_of(alloc, &image)?;
    Some((ranks.0.min(rank), ranks.1.max(rank)))
}

// The ranks of the images of a moment that have one byte wherever a crash may leave any, for each byte up to a last
// one.
fn ranks_at(alloc: Global, content: &Content, last: u8) -> Option<Ranks> {
    let mut ranks = (4, 0);
    for size in content.shortest_image()..=content.longest_image() {
        for byte in 0..=last {
            let filling = vec![in alloc; byte; size].ok()?;
            ranks = ranks_with(alloc, content, ranks, &filling)?;
        }
    }
    Some(ranks)
}

// The byte at a place of a file, or a zero past its end.
fn byte_at(file: &[u8], place: usize) -> u8 {
    if place < file.len() { file[place] } else { 0 }
}

// So many bytes: those of one file in front of a place, and those of another behind it.
fn mixed(alloc: Global, front: &[u8], cut: usize, rest: &[u8], size: usize) -> Option<Vec<u8>> {
    let mut bytes = Vec::with_capacity(alloc, size).ok()?;
    for place in 0..size {
        let byte = byte_at(if place < cut { front } else { rest }, place);
        bytes.push(byte).ok()?;
    }
    Some(bytes)
}

// These ranks with those of the images of a moment that hold, wherever a crash may leave any bytes, those of one file
// in front of a place, and those of another behind it. The places are those where the files differ, and the end.
fn mixed_ranks(
    alloc: Global,
    content: &Content,
    ranks: Ranks,
    front: &[u8],
    rest: &[u8],
) -> Option<Ranks> {
    let mut ranks = ranks;
    for size in content.shortest_image()..=content.longest_image() {
        for cut in 0..=size {
            if cut == size || byte_at(front, cut) != byte_at(rest, cut) {
                let filling = mixed(alloc, front, cut, rest, size)?;
                ranks = ranks_with(alloc, content, ranks, &filling)?;
            }
        }
    }
    Some(ranks)
}

// The ranks of the images of a moment: those that have one byte where a crash may leave any, and those that mix what
// stood there a moment before with what stands there in the end.
fn ranks_of_moment(alloc: Global, disk: &MemoryDisk, moment: u64, last: u8) -> Option<Ranks>
    requires { moment ≤ length disk.now.past }
{
    let content = disk.content_at(moment);
    let single = content.shortest_image() == content.longest_image();
    let ranks = ranks_at(alloc, content, if single { last } else { 2 })?;
    let old = disk.content_at(moment.saturating_sub(1)).seen();
    let new = disk.content_at(disk.moment()).seen();
    let ranks = mixed_ranks(alloc, content, ranks, new, old)?;
    mixed_ranks(alloc, content, ranks, old, new)
}

// The least rank of the last moment of a disk. None where an earlier moment had more, so that a record is lost, or
// where an image has more than one record that another image of its moment hasn't.
fn last_rank(alloc: Global, disk: &MemoryDisk, last: u8) -> Option<usize> {
    let mut least = 0;
    for moment in 0..=disk.moment() {
        let (low, high) = ranks_of_moment(alloc, disk, moment, last)?;
        if low < least || high - low.min(high) > 1 {
            return None;
        }
        least = low;
    }
    Some(least)
}

// The header of a journal with this name, and what follows it.
fn file_of(alloc: Global, name: &[u8], tail: &[u8]) -> Option<Vec<u8>> {
    let mut bytes = Vec::from_slice(alloc, name).ok()?;
    bytes.extend_from_slice(&[0; 56]).ok()?;
    bytes.extend_from_slice(tail).ok()?;
    Some(bytes)
}

// An objects journal just made over a disk whose calls of these numbers are to fail.
fn objects_journal(alloc: Global, failing: &[u64]) -> Option<Journal<MemoryDisk>>
    ensures { IfSome result IsReady }
{
    begun(disk_of(alloc, b"", failing)?, Kind::Objects).ok()
}

// The disk of an objects journal just made and, where a body is given, appended to.
fn disk_with(alloc: Global, body: Option<&[u8]>) -> Option<MemoryDisk> {
    let mut journal = objects_journal(alloc, &[])?;
    if let Some(body) = body {
        journal.append(body).ok()?;
    }
    Some(journal.close())
}

// The length of a disk's file, which is to be that of an objects journal with this tail.
fn length_of(alloc: Global, disk: &MemoryDisk, tail: &[u8]) -> Option<usize> {
    let want = file_of(alloc, b"POLOBJ01", tail)?;
    let file = disk.content_at(disk.moment()).seen();
    (file == want.as_slice()).then_some(file.len())
}

// The same of such a disk.
fn length_with(alloc: Global, body: Option<&[u8]>, tail: &[u8]) -> Option<usize> {
    length_of(alloc, &disk_with(alloc, body)?, tail)
}

#[test]
fn gate_stands_at_64_and_behind_a_record_of_39_bytes_at_112(rt: HostRuntime) {
    let alloc = rt.alloc();
    assert!(rt; length_with(alloc, None, b"\0") == Some(65));
    let body = b"a record whose body has thirty-nine byt";
    let tail = b"\x01\0\0\0\0\0\0\0\x27a record whose body has thirty-nine byt\0";
    assert!(rt; length_with(alloc, Some(body), tail) == Some(113));
}

// How many records, each of the body A, a file with these bytes behind its header stands for.
fn count_in(alloc: Global, name: &[u8], tail: &[u8]) -> Option<Result<usize, JournalRefused>> {
    let disk = disk_of(alloc, &file_of(alloc, name, tail)?, &[])?;
    match count_of(alloc, disk, Kind::Catalogue, &[(b"A", 64), (b"A", 74)]) {
        Ok(count) => Some(Ok(count?)),
        Err(refused) => Some(Err(refused)),
    }
}

// The refusal of the record at this gate.
fn bad_at(at: u64) -> Result<usize, JournalRefused> {
    Err(JournalRefused::BadRecord { at })
}

// A file's name and what follows its header, and how many records it has.
type File = (&'static [u8], &'static [u8], Result<usize, JournalRefused>);

// The number of the first file that has another count.
fn first_other(alloc: Global, files: &[File]) -> Option<usize> {
    for number in 0..files.len() {
        let (name, tail, want) = files[number];
        if count_in(alloc, name, tail) != Some(want) {
            return Some(number);
        }
    }
    None
}

#[test]
fn files_stand_for_their_records_or_are_refused(rt: HostRuntime) {
    let none = Err(JournalRefused::NotAJournal);
    let files: [File; 15] = [
        (b"POLJRN01", b"", none),
        (b"POLOBJ01", b"\0", none),
        (b"POLJRN0", b"\0\0", none),
        (b"POLJRN01", b"\0", Ok(0)),
        (b"POLJRN01", b"\x09\x01\x02", Ok(0)),
        (b"POLJRN01", b"\x01\0\0\0\0\0\0\0\x01A\0", Ok(1)),
        (
            b"POLJRN01",
            b"\x01\0\0\0\0\0\0\0\x01A\x01\0\0\0\0\0\0\0\x01A\x02\x01\x01\x01\x01",
            Ok(2),
        ),
        (b"POLJRN01", b"\x01\0\0\0\0\0\0\0\x01A\0any ten by", Ok(1)),
        (
            b"POLJRN01",
            b"\x01\0\0\0\0\0\0\0\x01A\x01\xFF\xFF\xFF\xFF\xFF\xFF\xFF\xFF\xFF\xFF",
            bad_at(74),
        ),
        (b"POLJRN01", b"\x01\0\0\0\0\0\0\0\x01A", bad_at(74)),
        (
            b"POLJRN01",
            b"\x01\0\0\0\0\0\0\0\x01A\x01\0\0\0\0\0\0\0\x01A",
            bad_at(84),
        ),
        (b"POLJRN01", b"\x01\0\0\0\0\0\0\0\x01", bad_at(64)),
        (b"POLJRN01", b"\x01\0\0", bad_at(64)),
        (
            b"POLJRN01",
            b"\x01\xFF\xFF\xFF\xFF\xFF\xFF\xFF\xFFABCDEFGH",
            bad_at(64),
        ),
        (
            b"POLJRN01",
            b"\x01\0\0\0\0\0\0\0\x01A\x01\0\0\0\0\0\0\0\x09ABCDEFGH",
            bad_at(74),
        ),
    ];
    assert_eq!(rt; first_other(rt.alloc(), &files), None);
}

// Whether a disk where this call failed has all that was appended, or nothing where that call makes the journal. Each
// image of each moment is to stand for a front of what was appended.
fn is_as_wanted(
    alloc: Global,
    disk: &MemoryDisk,
    answer: Result<(), JournalRefused>,
    failing: u64,
    last: u8,
) -> Option<bool> {
    let rank = last_rank(alloc, disk, last)?;
    if 1 <= failing && failing <= 8 {
        return Some(rank == 0 && matches!(answer, Err(JournalRefused::DiskFault)));
    }
    Some(rank == 4 && answer.is_ok())
}

// The same of a disk to which all is appended.
fn is_kept(alloc: Global, failing: u64, last: u8) -> Option<bool> {
    let (disk, answer) = written(disk_of(alloc, b"", &[failing])?, Kind::Objects);
    is_as_wanted(alloc, &disk, answer, failing, last)
}

#[test]
fn every_image_of_each_moment_opens_to_a_front_of_what_was_appended(rt: HostRuntime) {
    for failing in 0..=26 {
        let last = if failing == 0 { 255 } else { 2 };
        let kept = is_kept(rt.alloc(), failing, last) == Some(true);
        assert!(rt; kept, "call {failing}");
    }
}

// What a repair answers after an append that is to leave it open whether its record is there.
fn repair_of(journal: &mut Journal<MemoryDisk>) -> Option<Result<(), JournalRefused>>
    requires { IsReady journal.old }
{
    match journal.append(RECORDS[0].0) {
        Err(JournalRefused::Unknown) => Some(journal.repair()),
        _ => None,
    }
}

// Appends to a new journal and repairs, where calls 14 and `failing` of its disk fail: what the repair answered, and
// the ranks of the images then.
type Repaired = (Result<(), JournalRefused>, Ranks);

fn repaired(alloc: Global, failing: u64) -> Option<Repaired> {
    let mut journal = objects_journal(alloc, &[14, failing])?;
    let answer = repair_of(&mut journal);
    with_ranks(alloc, answer, &journal.close())
}

// An answer, and the ranks of a disk's images.
fn with_ranks(
    alloc: Global,
    answer: Option<Result<(), JournalRefused>>,
    disk: &MemoryDisk,
) -> Option<Repaired> {
    Some((answer?, ranks_at(alloc, disk.content_at(disk.moment()), 2)?))
}

#[test]
fn append_that_failed_is_there_or_not_until_it_is_repaired(rt: HostRuntime) {
    let alloc = rt.alloc();
    assert!(rt; matches!(repaired(alloc, 99), Some((Ok(()), (1, 1)))));
    let failed = repaired(alloc, 16);
    assert!(rt; matches!(failed, Some((Err(JournalRefused::DiskFault), (1, 2)))));
}

// Appends to a journal over a disk that never fails: it stays ready, whatever the answer.
fn append_hollow(journal: &mut Journal<HollowDisk>, body: &[u8]) -> Result<(), JournalRefused>
    requires { IsReady journal.old }
    ensures { IsReady journal.new }
{
    journal.append(body)
}

// Appends a record of this body for each number below 2^20 but 0.
fn append_many(journal: &mut Journal<HollowDisk>, body: &[u8]) -> Result<(), JournalRefused>
    requires { IsReady journal.old }
    ensures { IsReady journal.new }
{
    for _ in 1..1_048_576 {
        append_hollow(journal, body)?;
    }
    Ok(())
}

// What three appends answer to a journal of nearly 2^40 bytes over a hollow disk: one that goes a byte too far, one
// that goes to the end, and one behind that. And the length of the disk.
type Answers = (
    Result<(), JournalRefused>,
    Result<(), JournalRefused>,
    Result<(), JournalRefused>,
    Result<u64, Failed>,
);

fn answers_near_the_end(bytes: &[u8]) -> Option<Answers> {
    let Ok(mut journal) = begun(HollowDisk::new(0), Kind::Catalogue) else {
        return None;
    };
    append_many(&mut journal, bytes.get(9..)?).ok()?;
    let too_far = append_hollow(&mut journal, bytes.get(73..)?);
    let to_the_end = append_hollow(&mut journal, bytes.get(74..)?);
    let behind = append_hollow(&mut journal, b"");
    Some((too_far, to_the_end, behind, journal.close().length()))
}

#[test]
fn journal_reaches_2_to_40_bytes_and_no_further(rt: HostRuntime) -> Result<(), Fail> {
    let bytes = vec![in rt.alloc(); 7; 1_048_576]?;
    let answers = answers_near_the_end(&bytes);
    drop(bytes);
    assert!(rt;
        matches!(
            answers,
            Some((
                Err(JournalRefused::JournalFull {
                    length: 1_099_510_579_265,
                    wanted: 1_099_511_627_777,
                }),
                Ok(()),
                Err(JournalRefused::JournalFull {
                    length: 1_099_511_627_776,
                    wanted: 1_099_511_627_785,
                }),
                Ok(1_099_511_627_776),
            ))
        )
    );
    Ok(())
}

// What the first journal of a disk answers, and then a second.
fn made_twice<D: Disk + Drop>(disk: D) -> (Result<(), JournalRefused>, Result<(), JournalRefused>) {
    let (mut disk, answer) = written(disk, Kind::Catalogue);
    let again = Journal::create(&mut disk, Kind::Objects, &[0]);
    (answer, again)
}

// The same of a disk over the file of this path.
fn made_twice_in<R: Files + Copy>(
    runtime: R,
    path: String,
) -> (Result<(), JournalRefused>, Result<(), JournalRefused>) {
    made_twice(FileDisk::new(runtime, path))
}

#[test]
fn journal_is_made_on_an_empty_file_alone(rt: HostRuntime) -> Result<(), Fail> {
    let alloc = rt.alloc();
    let name = "vanloquat_journal";
    let _ = fs::remove_file(&rt, name);
    let made = made_twice_in(&rt, String::from_str(alloc, name)?);
    assert!(rt; matches!(made, (Ok(()), Err(JournalRefused::JournalThere))));
    let file = FileDisk::new(&rt, String::from_str(alloc, name)?);
    let count = count_of(alloc, file, Kind::Catalogue, &RECORDS);
    assert!(rt; matches!(count, Ok(Some(3))));
    fs::remove_file(&rt, name)?;
    Ok(())
}

// Takes what may cross to another thread.
fn moved<T: Send + Drop>(_value: T) {}

#[test]
fn journals_may_cross_threads(rt: HostRuntime) {
    if let Some(journal) = objects_journal(rt.alloc(), &[]) {
        moved(journal);
    }
}
