//! Scripts that are too long to be written out.

use std::alloc::{AllocError, Global};

/// How many customers there are, and how many orders.
pub const CUSTOMERS: u32 = 100;

pub const ORDERS: u32 = 1000;

/// How many sessions change orders, and how many orders each of them.
const SESSIONS: u32 = 4;

const CHANGES: u32 = 50;

/// Adds a tuple for each number from one to another, behind one that stands there already.
fn put_tuples(script: &mut String, from: u32, to: u32) -> Result<(), AllocError> {
    for number in from..=to {
        write!(
            script,
            "{}({number}, ",
            if number == from { "" } else { ", " }
        )?;
        write!(script, "'row {number}', {number})")?;
    }
    Ok(())
}

/// A table of people, and a MIGRATE that splits it into two, with nothing moved.
pub fn split_people(alloc: Global, people: u32) -> Result<String, AllocError> {
    let mut script = String::new(alloc);
    script.push_str("PHASE; SESSION;\n")?;
    script.push_str("CREATE TABLE cust (id INT, name VARCHAR(20), pin INT, PRIMARY KEY (id));\n")?;
    script.push_str("INSERT INTO cust VALUES ")?;
    put_tuples(&mut script, 1, people)?;
    script.push_str(";\nMIGRATE (CREATE TABLE pub AS SELECT id, name FROM cust;")?;
    script.push_str(" CREATE TABLE priv AS SELECT id, pin FROM cust);\n")?;
    Ok(script)
}

/// Adds an INSERT of customers.
fn put_customers(script: &mut String) -> Result<(), AllocError> {
    script.push_str("INSERT INTO custs VALUES (1, 'customer 1')")?;
    for number in 2..=CUSTOMERS {
        write!(script, ", ({number}, 'customer {number}')")?;
    }
    script.push_str(";\n")
}

/// Adds an INSERT of a hundred orders, from one number on.
fn put_orders(script: &mut String, from: u32) -> Result<(), AllocError> {
    write!(script, "INSERT INTO orders VALUES ({from}, 1, 5)")?;
    for step in 1..100u32 {
        let number = from.saturating_add(step);
        write!(
            script,
            ", ({number}, {}, {})",
            step.saturating_add(1),
            step % 7
        )?;
    }
    script.push_str(";\n")
}

/// Adds a session that changes one order after the other.
fn put_changes(script: &mut String, first: u32) -> Result<(), AllocError> {
    script.push_str("SESSION;\n")?;
    for step in 0..CHANGES {
        let order = first.saturating_add(step);
        writeln!(
            script,
            "BEGIN; UPDATE orders SET qty = qty + 1 WHERE oid = {order}; COMMIT;"
        )?;
    }
    Ok(())
}

/// A run of ordinary size: two tables of customers and of orders, a MIGRATE that writes each customer's name beside the
/// orders, and four sessions that change orders at the same time.
pub fn ordinary_run(alloc: Global) -> Result<String, AllocError> {
    let mut script = String::new(alloc);
    script.push_str("PHASE; SESSION;\n")?;
    script.push_str("CREATE TABLE custs (cid INT, name VARCHAR(30), PRIMARY KEY (cid));\n")?;
    script.push_str("CREATE TABLE orders (oid INT, cid INT, qty INT, PRIMARY KEY (oid));\n")?;
    put_customers(&mut script)?;
    for hundred in 0..ORDERS / 100 {
        put_orders(&mut script, hundred * 100 + 1)?;
    }
    script.push_str("PHASE; SESSION;\nMIGRATE (CREATE TABLE orders AS")?;
    script.push_str(
        " SELECT oid, orders.cid, name, qty FROM orders JOIN custs ON orders.cid = custs.cid);\n",
    )?;
    script.push_str("PHASE;\n")?;
    for session in 0..SESSIONS {
        put_changes(&mut script, session * 250 + 1)?;
    }
    Ok(script)
}
