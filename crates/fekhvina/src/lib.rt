// The entries that a C host calls, one for each number of an answer. Each does the whole operation. include/fekhvina.h
// declares them.
#![tactic(auto)]

ghost use Rattle.std.specs.Prelude.{◌≡◌, length};
ghost use Rattle.operations.specs.Pair.{from_record, from_list};
ghost use Rattle.operations.specs.Narrow.{narrowed, narrow_numbers, Narrows};
ghost use Rattle.operations.specs.Placed.{placed, place_numbers, Places};
ghost use Rattle.operations.specs.Tidy.{tidied, tidy_numbers, Tidies};
ghost use Rattle.operations.specs.Try.{tried, try_numbers, Tries};

use model::{Block, Refusal, refusal_number};
use operations::{Narrowed, Tried, narrow, narrow_list, tidy, try_word};

// The number of the verdict of narrow's answer, 0 where refused.
fn narrow_verdict(answer: Result<Narrowed, Refusal>) -> u32
    ensures { result ≡ (narrow_numbers answer).verdict }
{
    answer.map_or(0, |narrowed| narrowed.verdict.number())
}

// The bytes written of narrow's answer, 0 where refused.
fn narrow_bytes(answer: Result<Narrowed, Refusal>) -> u32
    ensures { result ≡ (narrow_numbers answer).bytes }
{
    answer.map_or(0, |narrowed| narrowed.bytes)
}

// Narrow's refusal number.
#[unsafe(no_mangle)]
pub extern "C" fn fekhvina_narrow_refusal(book: &[u8], mask: &[u8], out: &mut [u8]) -> u32
    ensures { let answer = narrowed (from_record book.now mask.now) (length out.old) in
        (result ≡ (narrow_numbers answer).refusal)
        × Narrows (from_record book.now mask.now) out.old out.new answer }
{
    refusal_number(&narrow(book, mask, out))
}

// The number of narrow's verdict.
#[unsafe(no_mangle)]
pub extern "C" fn fekhvina_narrow_verdict(book: &[u8], mask: &[u8], out: &mut [u8]) -> u32
    ensures { let answer = narrowed (from_record book.now mask.now) (length out.old) in
        (result ≡ (narrow_numbers answer).verdict)
        × Narrows (from_record book.now mask.now) out.old out.new answer }
{
    narrow_verdict(narrow(book, mask, out))
}

// The bytes that narrow wrote.
#[unsafe(no_mangle)]
pub extern "C" fn fekhvina_narrow_bytes(book: &[u8], mask: &[u8], out: &mut [u8]) -> u32
    ensures { let answer = narrowed (from_record book.now mask.now) (length out.old) in
        (result ≡ (narrow_numbers answer).bytes)
        × Narrows (from_record book.now mask.now) out.old out.new answer }
{
    narrow_bytes(narrow(book, mask, out))
}

// The refusal number of narrow on a list.
#[unsafe(no_mangle)]
pub extern "C" fn fekhvina_narrow_list_refusal(book: &[u8], blocks: &[Block], out: &mut [u8]) -> u32
    ensures { let answer = narrowed (from_list book.now blocks.now) (length out.old) in
        (result ≡ (narrow_numbers answer).refusal)
        × Narrows (from_list book.now blocks.now) out.old out.new answer }
{
    refusal_number(&narrow_list(book, blocks, out))
}

// The number of its verdict.
#[unsafe(no_mangle)]
pub extern "C" fn fekhvina_narrow_list_verdict(book: &[u8], blocks: &[Block], out: &mut [u8]) -> u32
    ensures { let answer = narrowed (from_list book.now blocks.now) (length out.old) in
        (result ≡ (narrow_numbers answer).verdict)
        × Narrows (from_list book.now blocks.now) out.old out.new answer }
{
    narrow_verdict(narrow_list(book, blocks, out))
}

// The bytes that it wrote.
#[unsafe(no_mangle)]
pub extern "C" fn fekhvina_narrow_list_bytes(book: &[u8], blocks: &[Block], out: &mut [u8]) -> u32
    ensures { let answer = narrowed (from_list book.now blocks.now) (length out.old) in
        (result ≡ (narrow_numbers answer).bytes)
        × Narrows (from_list book.now blocks.now) out.old out.new answer }
{
    narrow_bytes(narrow_list(book, blocks, out))
}

// The set of place's answer, empty where refused.
fn place_set(answer: Result<Block, Refusal>) -> u64
    ensures { result ≡ (place_numbers answer).set }
{
    answer.map_or(0, |block| block.base)
}

// The lower bound of place's answer, 0 where refused.
fn place_lower(answer: Result<Block, Refusal>) -> u32
    ensures { result ≡ (place_numbers answer).lower }
{
    answer.map_or(0, |block| u32::from(block.lower))
}

// The upper bound of place's answer, 0 where refused.
fn place_upper(answer: Result<Block, Refusal>) -> u32
    ensures { result ≡ (place_numbers answer).upper }
{
    answer.map_or(0, |block| u32::from(block.upper))
}

// Place's refusal number.
#[unsafe(no_mangle)]
pub extern "C" fn fekhvina_place_refusal(book: &[u8], mask: &[u8], block: u32, place: u32) -> u32
    ensures { let answer = placed book.now mask.now block place in
        (result ≡ (place_numbers answer).refusal) × Places book.now mask.now block place answer }
{
    refusal_number(&operations::place(book, mask, block, place))
}

// The set that place found.
#[unsafe(no_mangle)]
pub extern "C" fn fekhvina_place_set(book: &[u8], mask: &[u8], block: u32, place: u32) -> u64
    ensures { let answer = placed book.now mask.now block place in
        (result ≡ (place_numbers answer).set) × Places book.now mask.now block place answer }
{
    place_set(operations::place(book, mask, block, place))
}

// Its lower bound.
#[unsafe(no_mangle)]
pub extern "C" fn fekhvina_place_lower(book: &[u8], mask: &[u8], block: u32, place: u32) -> u32
    ensures { let answer = placed book.now mask.now block place in
        (result ≡ (place_numbers answer).lower) × Places book.now mask.now block place answer }
{
    place_lower(operations::place(book, mask, block, place))
}

// Its upper bound.
#[unsafe(no_mangle)]
pub extern "C" fn fekhvina_place_upper(book: &[u8], mask: &[u8], block: u32, place: u32) -> u32
    ensures { let answer = placed book.now mask.now block place in
        (result ≡ (place_numbers answer).upper) × Places book.now mask.now block place answer }
{
    place_upper(operations::place(book, mask, block, place))
}

// The bytes written of tidy's answer, 0 where refused.
fn tidy_bytes(answer: Result<u32, Refusal>) -> u32
    ensures { result ≡ (tidy_numbers answer).bytes }
{
    answer.unwrap_or(0)
}

// Tidy's refusal number.
#[unsafe(no_mangle)]
pub extern "C" fn fekhvina_tidy_refusal(mask: &[u8], out: &mut [u8]) -> u32
    ensures { let answer = tidied mask.now (length out.old) in
        (result ≡ (tidy_numbers answer).refusal) × Tidies mask.now out.old out.new answer }
{
    refusal_number(&tidy(mask, out))
}

// The bytes that tidy wrote.
#[unsafe(no_mangle)]
pub extern "C" fn fekhvina_tidy_bytes(mask: &[u8], out: &mut [u8]) -> u32
    ensures { let answer = tidied mask.now (length out.old) in
        (result ≡ (tidy_numbers answer).bytes) × Tidies mask.now out.old out.new answer }
{
    tidy_bytes(tidy(mask, out))
}

// Whether the mask spells the code, of try's answer: yes is 1; 0 where refused.
fn try_mask(answer: Result<Tried, Refusal>) -> u32
    ensures { result ≡ (try_numbers answer).mask }
{
    answer.map_or(0, |tried| u32::from(tried.mask))
}

// Whether the book accepts the code, of try's answer: yes is 1; 0 where refused.
fn try_book(answer: Result<Tried, Refusal>) -> u32
    ensures { result ≡ (try_numbers answer).book }
{
    answer.map_or(0, |tried| u32::from(tried.book))
}

// Try's refusal number.
#[unsafe(no_mangle)]
pub extern "C" fn fekhvina_try_refusal(book: &[u8], mask: &[u8], word: &[u8]) -> u32
    ensures { let answer = tried book.now mask.now word.now in
        (result ≡ (try_numbers answer).refusal) × Tries book.now mask.now word.now answer }
{
    refusal_number(&try_word(book, mask, word))
}

// Whether the mask spells the code.
#[unsafe(no_mangle)]
pub extern "C" fn fekhvina_try_mask(book: &[u8], mask: &[u8], word: &[u8]) -> u32
    ensures { let answer = tried book.now mask.now word.now in
        (result ≡ (try_numbers answer).mask) × Tries book.now mask.now word.now answer }
{
    try_mask(try_word(book, mask, word))
}

// Whether the book accepts the code.
#[unsafe(no_mangle)]
pub extern "C" fn fekhvina_try_book(book: &[u8], mask: &[u8], word: &[u8]) -> u32
    ensures { let answer = tried book.now mask.now word.now in
        (result ≡ (try_numbers answer).book) × Tries book.now mask.now word.now answer }
{
    try_book(try_word(book, mask, word))
}
