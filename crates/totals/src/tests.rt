use crate::money::Money;
use crate::table::{Cell, Table};
use crate::total::Total;
use design::fault::{Fault, Reason};
use std::test::Fail;

// Clears a total and adds each weighted reading; the fault of the first one refused.
fn sum_up<T: Total>(total: &mut T, weighted: &[(u32, T::Reading)]) -> Result<(), Fault> {
    total.clear();
    for (w, reading) in weighted {
        total.add(*w, reading)?;
    }
    Ok(())
}

#[test]
fn money_of_two_readings(rt: HostRuntime) -> Result<(), Fail> {
    let mut total = Money::new();
    sum_up(&mut total, &[(6, 5), (2, 7)])?;
    assert_eq!(rt; total.entry(0), Some(44));
    assert_eq!(rt; total.entry(1), None);
    Ok(())
}

#[test]
fn money_below_nothing(rt: HostRuntime) -> Result<(), Fail> {
    let mut total = Money::default();
    sum_up(&mut total, &[(1_000_000_000, -1_000_000), (3, 4)])?;
    assert_eq!(rt; total.entry(0), Some(-999_999_999_999_988));
    Ok(())
}

#[test]
fn table_of_one_cell_twice(rt: HostRuntime) -> Result<(), Fail> {
    let mut total = Table::new();
    sum_up(&mut total, &[(1, Cell { at: 4 }), (1, Cell { at: 4 })])?;
    let mut entries = [None; 7];
    for (i, entry) in entries.iter_mut().enumerate() {
        *entry = total.entry(i);
    }
    assert_eq!(rt;
        entries,
        [Some(0), Some(0), Some(0), Some(0), Some(2), Some(0), None]
    );
    Ok(())
}

#[test]
fn lawful_readings(rt: HostRuntime) {
    assert!(rt; Money::lawful(&1_000_000));
    assert!(rt; Money::lawful(&-1_000_000));
    assert!(rt; !Money::lawful(&1_000_001));
    assert!(rt; !Money::lawful(&i32::MIN));
    assert!(rt; Table::lawful(&Cell { at: 5 }));
    assert!(rt; !Table::lawful(&Cell { at: 6 }));
}

// After 1,024 additions a weight above the limit and an unlawful reading come first; cleared, the total takes additions again.
#[test]
fn refusals_in_their_order(rt: HostRuntime) -> Result<(), Fail> {
    let mut total = Money::new();
    for _ in 0..1024 {
        total.add(1_000_000_000, &1_000_000)?;
    }
    let full = Some(1_024_000_000_000_000_000);
    assert_eq!(rt; total.entry(0), full);
    assert_eq!(rt;
        total.add(1_000_000_001, &1_000_001),
        Err(Fault::of(Reason::AddedWeightTooLarge))
    );
    assert_eq!(rt;
        total.add(1_000_000_000, &1_000_001),
        Err(Fault::of(Reason::UnlawfulReading))
    );
    assert_eq!(rt;
        total.add(1_000_000_000, &1_000_000),
        Err(Fault::of(Reason::TotalFull))
    );
    assert_eq!(rt; total.entry(0), full);
    sum_up(&mut total, &[(0, 9)])?;
    assert_eq!(rt; total.entry(0), Some(0));
    Ok(())
}
