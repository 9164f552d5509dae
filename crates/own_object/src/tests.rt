use crate::{LEFT, ORDER, StockObject, stock_rows};
use scoop_message::{Answer, Args, Request, Words};
use scoop_object::{Behaviour, Class, Object, Table};
use std::test::Fail;

fn request(op: u16, args: &[u64]) -> Result<Request, Fail> {
    let args = Args::of(args)?;
    Ok(Request { op, args })
}

/// The example of the crate.
#[test]
fn a_stock_is_ordered_from(rt: HostRuntime) -> Result<(), Fail> {
    let mut stock = StockObject::new(10, 0);
    let order = Request {
        op: ORDER,
        args: Args::of(&[4])?,
    };
    assert_eq!(rt; stock.apply(&order), Answer::Value(6));
    assert_eq!(rt; stock.words(), Words::of(&[6, 4])?);
    // a table that interprets the rows does the same
    let class = Class::build(rt.alloc(), 2, &stock_rows())?;
    let mut table = Table::new(class, Words::of(&[10, 0])?)?;
    assert_eq!(rt; table.apply(&order), Answer::Value(6));
    assert_eq!(rt; table.words(), stock.words());
    Ok(())
}

#[test]
fn a_stock_refuses_what_it_has_not(rt: HostRuntime) -> Result<(), Fail> {
    let mut stock = StockObject::new(6, 4);
    let more = request(ORDER, &[7])?;
    assert_eq!(rt; stock.apply(&more), Answer::Refused);
    let left = request(LEFT, &[])?;
    assert_eq!(rt; stock.apply(&left), Answer::Value(6));
    let unknown = request(3, &[1])?;
    assert_eq!(rt; stock.apply(&unknown), Answer::Refused);
    assert_eq!(rt; stock.words(), Words::of(&[6, 4])?);
    Ok(())
}

/// The type and the table of its class do the same.
#[test]
fn type_and_table_agree(rt: HostRuntime) -> Result<(), Fail> {
    let class = Class::build(rt.alloc(), 2, &stock_rows())?;
    let mut stock = StockObject::new(10, 18446744073709551610);
    assert!(rt; stock.has_class(&class));
    let mut table = Table::new(class, Words::of(&[10, 18446744073709551610])?)?;
    for (op, amount) in [(ORDER, 3), (LEFT, 0), (ORDER, 7), (ORDER, 1), (9, 1)] {
        let asked = request(op, &[amount])?;
        assert_eq!(rt; stock.apply(&asked), table.apply(&asked));
        assert_eq!(rt; stock.words(), table.words());
    }
    assert!(rt; stock.restore(Words::of(&[1])?).is_err());
    assert!(rt; stock.restore(Words::of(&[1, 2])?).is_ok());
    assert_eq!(rt; stock.words(), Words::of(&[1, 2])?);
    Ok(())
}
