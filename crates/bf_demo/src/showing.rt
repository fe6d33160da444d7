//! What the demonstration shows of the report of its run.

ghost use Rattle.std.specs.Prelude.{◌≡◌, ◌≤◌, ◌++◌, IfOk, OnOk};
ghost use Rattle.bf_text.specs.Replies.{numbered};
ghost use Rattle.bf_demo.specs.Replies.{sum_of_owners};
ghost use Rattle.bf_demo.specs.Shown.{counted_lines, end_line, is_shown, last_lines, shown_of};

use bf_base::Memory;
use bf_text::put_number;
use std::alloc::Global;

/// Whether a line is a reply to the last session, or the last line of a report.
fn is_shown(line: &[u8]) -> bool
    ensures { result ≡ is_shown line.now }
{
    line.starts_with(b"7.") || line.starts_with(b"end ")
}

/// The lines of a report that are replies to the last session, and its last line. It takes time and
/// memory in proportion to the report.
///
/// # Errors
/// Where memory runs out.
pub fn shown(alloc: Global, report: &[u8]) -> Result<Vec<u8>, Memory>
    ensures { IfOk result (λ shown. shown.items ≡ shown_of report.now) }
{
    let mut shown = Vec::new(alloc);
    let mut line = Vec::new(alloc);
    for byte in report {
        line.push(*byte)?;
        if *byte == b'\n' {
            if is_shown(line.as_slice()) {
                shown.extend_from_slice(line.as_slice())?;
            }
            line.clear();
        }
    }
    Ok(shown)
}

/// The owners of so many accounts, 0 to 6 one after the other from 1 on, summed.
fn sum_of_owners(accounts: u64) -> u64
    requires { accounts ≤ 2000000 }
    ensures { result ≡ sum_of_owners accounts }
{
    let rest = accounts % 7;
    21 * (accounts / 7) + rest * (rest + 1) / 2
}

/// Appends words before a number.
fn put_numbered(lines: &mut Vec<u8>, words: &[u8], number: u64) -> Result<(), Memory>
    ensures { OnOk result (lines.new.items ≡ lines.old.items ++ numbered words.now number) }
{
    lines.extend_from_slice(words)?;
    put_number(lines, number)?;
    Ok(())
}

/// Appends a reply of one row, of a count and a sum, behind its place.
fn put_counted(lines: &mut Vec<u8>, place: &[u8], count: u64, amount: u64) -> Result<(), Memory>
    ensures { OnOk result
        (lines.new.items ≡ lines.old.items ++ counted_lines place.now count amount) }
{
    lines.extend_from_slice(place)?;
    lines.extend_from_slice(b" rows 1\n")?;
    lines.extend_from_slice(place)?;
    put_numbered(lines, b" | ", count)?;
    put_numbered(lines, b", ", amount)?;
    lines.extend_from_slice(b"\n")?;
    Ok(())
}

/// Appends the end of a report of so many commits and of one migration, of which all granules have moved.
fn put_end(lines: &mut Vec<u8>, commits: u64, moved: u64) -> Result<(), Memory>
    ensures { OnOk result (lines.new.items ≡ lines.old.items ++ end_line commits moved) }
{
    put_numbered(lines, b"end commits ", commits)?;
    put_numbered(lines, b" migration 1 complete ", moved)?;
    lines.extend_from_slice(b"\n")?;
    Ok(())
}

/// The five lines that are shown of a size, 1 to 65,535, where each transaction has committed and each account has moved.
///
/// # Errors
/// Where memory runs out.
pub fn last_lines(alloc: Global, n: u16) -> Result<Vec<u8>, Memory>
    ensures { IfOk result (λ lines. lines.items ≡ last_lines n) }
{
    let n = u64::from(n);
    let accounts = 16 * n;
    let mut lines = Vec::new(alloc);
    put_counted(&mut lines, b"7.1", accounts, 1610 * n)?;
    put_counted(&mut lines, b"7.2", accounts, sum_of_owners(accounts))?;
    put_end(&mut lines, 5 * n + 4, accounts)?;
    Ok(lines)
}
