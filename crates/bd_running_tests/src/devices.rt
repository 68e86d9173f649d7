//! Files and sinks in memory that fail where they are told to.
ghost use Rattle.std.specs.Prelude.{◌≡◌, Some};
ghost use Rattle.bd_files.specs.Devices.{Rose};

use bd_files::{FileCall, Files, LoadError, Page, PutError, SaveError, Shelf, Sink, put_pieces};
use std::alloc::{AllocError, Global};
use std::process::Abort;

/// A file of a shelf: its name and its bytes.
fn file(alloc: Global, name: &str, text: &str) -> Result<(String, Vec<u8>), AllocError> {
    let name = String::from_str(alloc, name)?;
    Ok((name, text.as_bytes().to_vec(alloc)?))
}

/// A shelf with the files `a` and `b`, and calls that fail.
fn shelf_of_two(rt: &(impl Abort + AllocGlobal), fails: Vec<u64>) -> Shelf {
    let first = file(rt.alloc(), "a", "one").expect(rt, "memory");
    let second = file(rt.alloc(), "b", "two").expect(rt, "memory");
    let held = vec![in rt.alloc(); first, second].expect(rt, "memory");
    Shelf::new(rt.alloc(), held, fails).expect(rt, "memory")
}

/// Whether a shelf loads this text where at most so many bytes are asked for; `failed` stands for a fault.
fn gives(shelf: &mut Shelf, name: &str, most: usize, text: &str) -> bool {
    match shelf.load(name, most) {
        Ok(bytes) => bytes.as_slice() == text.as_bytes(),
        Err(LoadError::Failed) => text == "failed",
        Err(LoadError::Memory) => false,
    }
}

/// What a save of a text says.
fn saved(shelf: &mut Shelf, name: &str, text: &str) -> &'static str {
    match shelf.save(name, text.as_bytes()) {
        Ok(()) => "saved",
        Err(SaveError::Failed) => "failed",
        Err(SaveError::Memory) => "memory",
    }
}

/// Checks what is loaded of a shelf with two files.
fn check_loads(rt: &impl Abort, shelf: &mut Shelf) {
    assert!(rt; gives(shelf, "a", 3, "one"));
    assert!(rt; gives(shelf, "a", 1, "on"));
    assert!(rt; gives(shelf, "b", 0, "t"));
    assert!(rt; gives(shelf, "b", 9, "two"));
    assert!(rt; gives(shelf, "c", 9, "failed"));
    assert!(rt; shelf.faults() == 1);
}

/// A shelf loads the first bytes of the files that it holds, and has a fault at a name that it doesn't hold.
#[test]
fn a_shelf_gives_what_it_holds(rt: HostRuntime) {
    let mut shelf = shelf_of_two(&rt, Vec::new(rt.alloc()));
    check_loads(&rt, &mut shelf);
}

/// Checks a shelf whose first and third call fail.
fn check_failing(rt: &impl Abort, shelf: &mut Shelf) {
    assert!(rt; gives(shelf, "a", 9, "failed"));
    assert!(rt; saved(shelf, "a", "1234") == "saved");
    assert!(rt; saved(shelf, "a", "56") == "failed");
    assert!(rt; gives(shelf, "a", 9, "1234"));
    assert!(rt; gives(shelf, "b", 9, "two"));
    assert!(rt; shelf.faults() == 2);
}

/// A shelf has a fault at the calls that it was told to fail at, counted from 1, and holds what others saved.
#[test]
fn a_shelf_fails_at_the_listed_calls(rt: HostRuntime) {
    let fails = vec![in rt.alloc(); 1, 3].expect(&rt, "memory");
    let mut shelf = shelf_of_two(&rt, fails);
    check_failing(&rt, &mut shelf);
}

/// A page with room for so many bytes, and puts that fail.
fn page(rt: &(impl Abort + AllocGlobal), room: usize, fails: Vec<(u64, usize)>) -> Page {
    Page::new(rt.alloc(), room, fails).expect(rt, "memory")
}

/// Checks what a page has, and how many of its puts had a fault.
fn check_page(rt: &impl Abort, page: &Page, written: &str, faults: u64) {
    assert!(rt;
        page.written() == written.as_bytes() && page.faults() == faults,
        "{written}"
    );
}

/// Checks a put on a page: whether it has a fault, and what the page has then.
fn check_put(
    rt: &impl Abort,
    page: &mut Page,
    text: &str,
    is_whole: bool,
    written: &str,
    faults: u64,
) {
    assert!(rt; page.put(text.as_bytes()).is_ok() == is_whole, "{text}");
    check_page(rt, page, written, faults);
}

/// Checks a page of six bytes whose second put keeps one byte and fails, and whose fourth may keep nine.
fn check_puts(rt: &impl Abort, page: &mut Page) {
    check_put(rt, page, "ab", true, "ab", 0);
    check_put(rt, page, "cd", false, "abc", 1);
    check_put(rt, page, "d", true, "abcd", 1);
    check_put(rt, page, "e", false, "abcde", 2);
    check_put(rt, page, "fg", false, "abcdef", 3);
    check_put(rt, page, "", true, "abcdef", 3);
}

/// A page keeps so many bytes of a put that it was told to fail at, and of any other what there is room for.
#[test]
fn a_page_keeps_what_a_failing_put_may_keep(rt: HostRuntime) {
    let fails = vec![in rt.alloc(); (2, 1), (4, 9)].expect(&rt, "memory");
    let mut page = page(&rt, 6, fails);
    check_puts(&rt, &mut page);
}

/// Checks what a page keeps of three pieces where this put, of all, keeps one byte and fails.
fn check_pieces(
    rt: &(impl Abort + AllocGlobal),
    failing: u64,
    is_whole: bool,
    written: &str,
    faults: u64,
) {
    let fails = vec![in rt.alloc(); (failing, 1)].expect(rt, "memory");
    let mut page = page(rt, 9, fails);
    assert!(rt;
        put_pieces(&mut page, &[b"ab", b"c", b"de"]).is_ok() == is_whole,
        "{failing}"
    );
    check_page(rt, &page, written, faults);
}

/// Several pieces are put in order, and none after one that has a fault.
#[test]
fn pieces_are_put_up_to_the_first_fault(rt: HostRuntime) {
    check_pieces(&rt, 9, true, "abcde", 0);
    check_pieces(&rt, 1, false, "a", 1);
    check_pieces(&rt, 3, false, "abcd", 1);
}

/// How far a copy came.
#[derive(Clone, Copy, PartialEq, Eq)]
enum Copied {
    Whole,
    NotLoaded,
    NotPut,
    Memory,
}

/// Puts the first bytes of a file, and names the device that failed.
fn copy<F: Files, O: Sink>(files: &mut F, out: &mut O, name: &str) -> Copied
    ensures not_loaded { result ≡ Copied.NotLoaded →
        Rose (F.faults files.old) (F.faults files.new) }
    ensures blamed { result ≡ Copied.NotLoaded →
        F.blame files.new ≡ Some (FileCall.Load, name.now) }
    ensures not_put { result ≡ Copied.NotPut → Rose (O.faults out.old) (O.faults out.new) }
    ensures holds_the_same { F.held files.new ≡ F.held files.old }
{
    let bytes = match files.load(name, 2) {
        Ok(bytes) => bytes,
        Err(LoadError::Failed) => return Copied::NotLoaded,
        Err(LoadError::Memory) => return Copied::Memory,
    };
    match out.put(bytes.as_slice()) {
        Ok(()) => Copied::Whole,
        Err(PutError::Failed) => Copied::NotPut,
    }
}

/// Checks which of a shelf and a page failed, copy by copy.
fn check_copies(rt: &impl Abort, shelf: &mut Shelf, page: &mut Page) {
    assert!(rt; copy(shelf, page, "a") == Copied::Whole);
    assert!(rt; copy(shelf, page, "a") == Copied::NotPut);
    assert!(rt; copy(shelf, page, "c") == Copied::NotLoaded);
    assert!(rt; page.written() == b"one".as_slice());
}

/// A function over any files and any sink runs with a shelf and a page, and says which of them failed.
#[test]
fn a_shelf_and_a_page_stand_for_any_devices(rt: HostRuntime) {
    let mut shelf = shelf_of_two(&rt, Vec::new(rt.alloc()));
    let mut page = page(&rt, 3, Vec::new(rt.alloc()));
    check_copies(&rt, &mut shelf, &mut page);
}
