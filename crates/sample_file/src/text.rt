ghost use Rattle.std.specs.Prelude.{◌≡◌, ◌++◌, OnOk, string_bytes};
ghost use Rattle.frame_file.specs.Faults.{numbered_file};
ghost use Rattle.sample_file.specs.Text.{fault_line, report_text, scale_line, total_line, unit_line};

use design::fraction::Fraction;
use frame_file::fault::FileFault;
use std::alloc::AllocError;
use std::fmt::Write;
use totals::money::Money;
use totals::table::Table;
use totals::total::Total;

/// Appends the line of the taken unit k, with its share.
pub fn write_unit(out: &mut String, k: u32, share: Fraction) -> Result<(), AllocError>
    ensures { OnOk result (string_bytes out.new ≡ string_bytes out.old ++ unit_line k share) }
{
    let (numerator, denominator) = share;
    writeln!(out, "{k},{numerator},{denominator}")
}

/// Appends the line of the scale.
pub fn write_scale(out: &mut String, scale: u32) -> Result<(), AllocError>
    ensures { OnOk result (string_bytes out.new ≡ string_bytes out.old ++ scale_line scale) }
{
    writeln!(out, "scale,{scale}")
}

/// Appends the line of a total, under its name.
pub fn write_total<T: Total>(out: &mut String, name: &str, total: &T) -> Result<(), AllocError>
    ensures { OnOk result (string_bytes out.new ≡ string_bytes out.old ++ total_line name.now (T.entries total.now)) }
{
    out.push_str(name)?;
    for i in 0..T::WIDTH {
        let entry = total.entry(i).unwrap();
        write!(out, ",{entry}")?;
    }
    writeln!(out)
}

/// Appends the lines of the scale and of both totals.
pub fn write_report(
    out: &mut String,
    scale: u32,
    money: &Money,
    table: &Table,
) -> Result<(), AllocError>
    ensures { OnOk result (string_bytes out.new ≡ string_bytes out.old ++ report_text scale (⟦<Money as Total>⟧.entries money.now) (⟦<Table as Total>⟧.entries table.now)) }
{
    write_scale(out, scale)?;
    write_total(out, "money", money)?;
    write_total(out, "table", table)
}

/// Appends the line of a refusal.
pub fn write_fault(out: &mut String, fault: FileFault) -> Result<(), AllocError>
    ensures { OnOk result (string_bytes out.new ≡ string_bytes out.old ++ fault_line (numbered_file fault)) }
{
    let number = fault.cause.number();
    let line = fault.line;
    let column = fault.column;
    let depth = fault.cause.depth();
    writeln!(out, "fault,{number},{line},{column},{depth}")
}
