//! Each reader once, on a table of TOML. The two ends of each field are tested where fields have
//! their places, over `Config::read`.

use ilp_fields::{
    ConfigFault, Field, Form, defaulted_amount, defaulted_number, defaulted_text, optional_integer,
    optional_text, required_asset, required_integer, required_number, required_text, tables_at,
};
use std::alloc::Global;
use std::process::Abort;
use std::test::Fail;
use toml::Table;

const TEXT: &str = "name = \"alice\"
asset = \"USD/2\"
least = -100
workers = 64
max_packet = 9223372036854775807
route = [{ prefix = \"\" }, { prefix = \"g\" }]
price = [1]
";

fn table(alloc: Global) -> Result<Table, Fail> {
    Ok(toml::table_from_slice(alloc, TEXT.as_bytes())?)
}

fn missing<T>(field: Field) -> Result<T, ConfigFault> {
    Err(ConfigFault::Missing { field })
}

fn bad_value<T>(field: Field) -> Result<T, ConfigFault> {
    Err(ConfigFault::BadValue { field })
}

#[test]
fn texts(rt: HostRuntime) -> Result<(), Fail> {
    let table = table(rt.alloc())?;
    read_texts(&rt, &table);
    Ok(())
}

fn read_texts(rt: &impl Abort, table: &Table) {
    assert_eq!(rt; required_text(table, Field::Name, Form::Name), Ok("alice"));
    assert_eq!(rt;
        required_text(table, Field::Name, Form::Path),
        bad_value(Field::Name)
    );
    assert_eq!(rt;
        required_text(table, Field::Least, Form::Name),
        bad_value(Field::Least)
    );
    assert_eq!(rt;
        required_text(table, Field::Token, Form::Token),
        missing(Field::Token)
    );
    assert_eq!(rt;
        optional_text(table, Field::Name, Form::Name),
        Ok(Some("alice"))
    );
    assert_eq!(rt;
        optional_text(table, Field::Engine, Form::SocketAddress),
        Ok(None)
    );
    assert_eq!(rt;
        defaulted_text(table, Field::Path, Form::Path, "/ilp"),
        Ok("/ilp")
    );
}

#[test]
fn assets(rt: HostRuntime) -> Result<(), Fail> {
    let table = table(rt.alloc())?;
    read_assets(&rt, &table)
}

fn read_assets(rt: &impl Abort, table: &Table) -> Result<(), Fail> {
    let asset = required_asset(table, Field::Asset)?;
    assert_eq!(rt; asset.code, "USD");
    assert_eq!(rt; asset.scale, 2);
    let name = Field::Name;
    let from = Field::From;
    let bad = ConfigFault::BadValue { field: name };
    let absent = ConfigFault::Missing { field: from };
    assert_eq!(rt; required_asset(table, name).err(), Some(bad));
    assert_eq!(rt; required_asset(table, from).err(), Some(absent));
    Ok(())
}

#[test]
fn numbers(rt: HostRuntime) -> Result<(), Fail> {
    let table = table(rt.alloc())?;
    read_numbers(&rt, &table);
    Ok(())
}

fn read_numbers(rt: &impl Abort, table: &Table) {
    let workers = Field::Workers;
    assert_eq!(rt; required_number(table, workers, 1, 64), Ok(64));
    assert_eq!(rt; required_number(table, workers, 1, 63), bad_value(workers));
    assert_eq!(rt;
        required_number(table, Field::Least, 0, 100),
        bad_value(Field::Least)
    );
    assert_eq!(rt;
        required_number(table, Field::Scale, 0, 255),
        missing(Field::Scale)
    );
    assert_eq!(rt;
        defaulted_number(table, workers, 65, 99, 70),
        bad_value(workers)
    );
    assert_eq!(rt; defaulted_number(table, Field::Scale, 0, 255, 7), Ok(7));
    let amount = defaulted_amount(table, Field::MaxPacket, 9223372036854775807, 5);
    assert_eq!(rt; amount, Ok(9223372036854775807));
}

#[test]
fn integers(rt: HostRuntime) -> Result<(), Fail> {
    let table = table(rt.alloc())?;
    read_integers(&rt, &table);
    Ok(())
}

fn read_integers(rt: &impl Abort, table: &Table) {
    assert_eq!(rt; required_integer(table, Field::Least), Ok(-100));
    assert_eq!(rt;
        required_integer(table, Field::SettleTo),
        missing(Field::SettleTo)
    );
    assert_eq!(rt; optional_integer(table, Field::Threshold), Ok(None));
    assert_eq!(rt;
        optional_integer(table, Field::Name),
        bad_value(Field::Name)
    );
}

#[test]
fn arrays(rt: HostRuntime) -> Result<(), Fail> {
    let table = table(rt.alloc())?;
    read_arrays(&rt, &table);
    Ok(())
}

fn read_arrays(rt: &impl Abort, table: &Table) {
    let count = |field, most| match tables_at(table, field, most) {
        Ok(values) => Ok(values.len()),
        Err(fault) => Err(fault),
    };
    assert_eq!(rt; count(Field::Route, 2), Ok(2));
    assert_eq!(rt; count(Field::Route, 1), bad_value(Field::Route));
    assert_eq!(rt; count(Field::Price, 2), bad_value(Field::Price));
    assert_eq!(rt; count(Field::Peer, 2), Ok(0));
}
