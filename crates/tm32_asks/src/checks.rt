// The checks of a request, in 01's order: the first that fails is complained of.
ghost use Rattle.std.specs.Prelude.{not, ◌≡◌, [], ◌∷◌, ◌+◌, ltb, if◌then◌else◌, Ok, Err};
ghost use Rattle.tm32_asks.specs.Checks.{check, checks, checks_of, flash_pages, is_length, is_page_count, protections, read_checks, verdict as verdict_of, write_checks};
ghost use Rattle.tm32_asks.specs.Map.{page_count};
ghost use Rattle.tm32_asks.specs.Rates.{is_rate};
ghost use Rattle.tm32_asks.specs.Results.{number_of, work_done, wrong_address, wrong_length};

use crate::map::{
    FLASH_START, PAGE_COUNT, PAGE_SIZE, in_flash, in_go_region, in_read_region, in_user_region,
};
use crate::options::{PageProtection, rdp_on};
use crate::{Complaint, Link, Request};
use memory::PageRun;

// The most bytes that Read and Write take.
const MOST_BYTES: u32 = 1024;

// The last code of the sixteen rates.
const LAST_RATE: u8 = 0x10;

// What the checks say of a request: the first that fails, or that the work may be done.
#[tactic(auto, using(crate::proofs::Verdicts::first_complains, crate::proofs::Verdicts::second_answers, crate::proofs::Verdicts::checks_others))]
pub fn verdict(link: Link, options: &[u8], request: Request) -> Result<(), Complaint>
    ensures { number_of result ≡ verdict_of work_done (checks_of link options.now request) }
{
    checked(link, request)?;
    protection(options, request)
}

// The checks before protection: shape, link, rate, length, page count, address, of each command those that it has.
#[tactic(auto, unfolding(crate::specs::Checks::checks, crate::specs::Checks::verdict))]
fn checked(link: Link, request: Request) -> Result<(), Complaint>
    ensures { number_of result ≡ verdict_of work_done (checks link request) }
{
    match request {
        Request::Pps { code } => {
            need(link == Link::Uart, Complaint::WrongLink)?;
            need(is_rate(code), Complaint::WrongRate)
        }
        Request::Read { address, count } => {
            range_checked(is_length(count), in_read_region(address, count))
        }
        Request::Write { address, count, .. } => {
            range_checked(is_length(count), in_user_region(address, count))
        }
        Request::MemoryCrc { address, count, .. } => {
            range_checked(count != 0, in_user_region(address, count))
        }
        Request::Erase { first, count } => {
            need(is_page_count(count), Complaint::WrongPageCount)?;
            need(!past_the_last_page(first, count), Complaint::WrongAddress)
        }
        Request::Go { address } => need(in_go_region(address), Complaint::WrongAddress),
        Request::Get | Request::WriteOptions | Request::ReadOptions | Request::HeartBeat => Ok(()),
        Request::Misshapen => Err(Complaint::WrongShape),
    }
}

// Length and address of a range: whether each is right.
#[tactic(auto, unfolding(crate::specs::Checks::verdict))]
fn range_checked(length: bool, address: bool) -> Result<(), Complaint>
    ensures { number_of result ≡ verdict_of work_done
        (check (not length) wrong_length ∷ check (not address) wrong_address ∷ []) }
{
    need(length, Complaint::WrongLength)?;
    need(address, Complaint::WrongAddress)
}

// Protection. Read and Memory CRC look at pages, Write changes them, and Erase counts as both.
#[tactic(auto, unfolding(crate::specs::Checks::protections, crate::specs::Checks::verdict), using(crate::proofs::Verdicts::first_complains, crate::proofs::Verdicts::second_answers, crate::proofs::Verdicts::read_others))]
fn protection(options: &[u8], request: Request) -> Result<(), Complaint>
    ensures { number_of result ≡ verdict_of work_done (protections options.now request) }
{
    match request {
        Request::Read { address, count } | Request::MemoryCrc { address, count, .. } => {
            read_verdict(options, flash_pages(address, count))
        }
        // The flag, too, is of no account to it.
        Request::Write {
            flag: _,
            address,
            count,
        } => { write_verdict(options, flash_pages(address, count)) }
        Request::Erase { first, count } => {
            let pages = PageRun { first, count };
            read_verdict(options, pages)?;
            write_verdict(options, pages)
        }
        // The others are free of all three.
        _ => Ok(()),
    }
}

// Against looking at pages.
#[tactic(auto, unfolding(crate::specs::Checks::read_checks, crate::specs::Checks::verdict))]
fn read_verdict(options: &[u8], pages: PageRun) -> Result<(), Complaint>
    ensures { number_of result ≡ verdict_of work_done (read_checks options.now pages) }
{
    need(
        pages.count == 0 || !rdp_on(options),
        Complaint::ReadProtected,
    )?;
    need(
        !PageProtection::Pcrop.meets(options, pages),
        Complaint::PcropProtected,
    )
}

// Against changing pages.
#[tactic(auto, unfolding(crate::specs::Checks::write_checks, crate::specs::Checks::verdict))]
fn write_verdict(options: &[u8], pages: PageRun) -> Result<(), Complaint>
    ensures { number_of result ≡ verdict_of work_done (write_checks options.now pages) }
{
    need(
        !PageProtection::Wrp.meets(options, pages),
        Complaint::WriteProtected,
    )
}

// One check: what is complained of where it fails. `tape` has its like for refusals, with a promise of its own.
fn need(holds: bool, complaint: Complaint) -> Result<(), Complaint>
    ensures { result ≡ (if holds then Ok tt else Err complaint) }
{
    if holds { Ok(()) } else { Err(complaint) }
}

// The pages of the flash that a range touches. Elsewhere there are none.
#[tactic(auto, unfolding(crate::specs::Checks::flash_pages), using(memory::proofs::Laws::region_holds))]
fn flash_pages(address: u32, count: u32) -> PageRun
    ensures { result ≡ flash_pages address count }
{
    if in_flash(address, count) {
        memory::touched(PAGE_SIZE, address - FLASH_START, count)
    } else {
        PageRun::NONE
    }
}

// Whether so many pages from the first on reach past the last page. This contract lays the code's count of pages against that of the
// definitions: it can be proved only where they are one number.
fn past_the_last_page(first: u32, count: u32) -> bool
    ensures { result ≡ ltb page_count (first + count) }
{
    u64::from(PAGE_COUNT) < u64::from(first) + u64::from(count)
}

// PPS takes 1 to the last code, Read and Write 1 byte to the most, and Erase 1 page to all of them. A rate stays a code: 01 has the
// rates in a table by code. Each of the three lays a limit of the code against that of its definition, and so has a name.
#[tactic(auto, unfolding(crate::specs::Numbers::from_one_to))]
pub fn is_rate(code: u8) -> bool
    ensures { result ≡ is_rate code }
{
    (1..=LAST_RATE).contains(&code)
}

#[tactic(auto, unfolding(crate::specs::Numbers::from_one_to))]
fn is_length(count: u32) -> bool
    ensures { result ≡ is_length count }
{
    (1..=MOST_BYTES).contains(&count)
}

#[tactic(auto, unfolding(crate::specs::Numbers::from_one_to))]
fn is_page_count(count: u32) -> bool
    ensures { result ≡ is_page_count count }
{
    (1..=PAGE_COUNT).contains(&count)
}
