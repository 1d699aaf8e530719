ghost use Rattle.std.specs.Prelude.{◌≡◌, ◌-◌, ◌^◌, ◌==◌, ◌||◌, min, length, nat_lt, decimal, slice_index_or, option_map, Some, IfErr, IfOk};
ghost use Rattle.std.specs.Fmt.{signed_decimal};
ghost use Rattle.frame_file.specs.Faults.{number_of_field};
ghost use Rattle.frame_file.specs.Fields.{amount, number, number_in, wrong_in};
ghost use Rattle.frame_file.specs.Written.{Between, MoneyFits};
ghost use Rattle.frame_file.specs.Limits.{largest_amount};

use frame_file::fault::FieldReason;
use frame_file::frame::LARGEST_AMOUNT;

// Whether the field is one byte, or begins above '0': no other is a number.
fn may_be_number(field: &[u8]) -> bool
    ensures { result ≡ (length field.now == 1 || nat_lt 48 (slice_index_or field.now 0 0)) }
{
    match field {
        [] => false,
        [_] => true,
        [first, ..] => *first > b'0',
    }
}

// The number that a field writes, of any length: one of more than 64 bits counts as the largest of 64 bits.
#[tactic(auto, using(crate::proofs::Digits::read_more, crate::proofs::Digits::digits_more, crate::proofs::Digits::no_number))]
fn number_of(field: &[u8]) -> Option<u64>
    ensures { result ≡ option_map (λ n. min n (2 ^ 64 - 1)) (number_in field.now) }
{
    if !may_be_number(field) {
        return None;
    }
    let mut number: u64 = 0;
    for byte in field {
        if !byte.is_ascii_digit() {
            return None;
        }
        number = number
            .saturating_mul(10)
            .saturating_add(u64::from(*byte - b'0'));
    }
    Some(number)
}

/// The number from `low` to `high` that the field writes.
#[tactic(auto, using(crate::proofs::Digits::below_cap))]
pub(crate) fn natural(field: &[u8], low: u32, high: u32) -> Result<u32, FieldReason>
    ensures written { IfOk result (λ n. (field.now ≡ decimal n) × Between low high n) }
    ensures wrong { IfErr result (λ e. wrong_in (number low high) field.now ≡ Some (number_of_field e)) }
{
    match number_of(field) {
        None => Err(FieldReason::NotANumber),
        Some(n) if n < u64::from(low) || n > u64::from(high) => Err(FieldReason::OutOfRange),
        Some(n) => Ok(n as u32),
    }
}

/// The amount of money that the field writes, with a minus before it where it is below 0.
#[tactic(auto, using(crate::proofs::Digits::minus_zero))]
pub(crate) fn money(field: &[u8]) -> Result<i32, FieldReason>
    ensures written { IfOk result (λ z. (field.now ≡ signed_decimal z) × MoneyFits z) }
    ensures wrong { IfErr result (λ e. wrong_in (amount largest_amount) field.now ≡ Some (number_of_field e)) }
{
    match field {
        [b'-', digits @ ..] => match natural(digits, 0, LARGEST_AMOUNT)? {
            0 => Err(FieldReason::NotANumber),
            n => Ok(-(n as i32)),
        },
        _ => Ok(natural(field, 0, LARGEST_AMOUNT)? as i32),
    }
}
