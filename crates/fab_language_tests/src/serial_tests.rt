//! A transfer of 5 from an account with 100 to an empty one, replayed.

use fab_base::{Boxed, NoMemory, Oid, Seq, Text, Tid, Value, Width};
use fab_map::ObjectMap;
use fab_net::{Event, Logged, Note};
use fab_serial::{commits, replay};
use fab_tree::resolved::{
    Asked, Expression, Form, Local, Method, Operand, Request, Resolved, Root, Session, Sort,
    Statement, Use,
};
use fab_tree::{Name, Operator};
use std::alloc::Global;
use std::test::Fail;

const FIRST: Use = Use { number: 0, at: 0 };

const SECOND: Use = Use { number: 1, at: 0 };

const THIRD: Use = Use { number: 2, at: 0 };

const TID: Tid = Tid {
    worker: 0,
    boot: 1,
    number: 1,
};

fn account(number: u32) -> Oid {
    Oid {
        store: 1,
        class: 0,
        worker: 65535,
        boot: 0,
        number,
        site: 65535,
        index: 0,
    }
}

fn name(alloc: Global) -> Result<Name, NoMemory> {
    Ok(Name {
        text: Text::make(alloc, "n")?,
        at: 0,
    })
}

fn expression(form: Form) -> Expression {
    Expression { form, at: 0 }
}

/// The balance of the account in this local changes by the number in the third.
fn moved(alloc: Global, object: Use, operator: Operator) -> Result<Statement, NoMemory> {
    let read = expression(Form::Read {
        object,
        field: 0,
        site: 0,
    });
    let operand = Operand {
        operator,
        at: 0,
        operand: expression(Form::Local(THIRD)),
    };
    Ok(Statement::Write {
        object,
        field: 0,
        value: expression(Form::Chain {
            first: Boxed::make(alloc, read)?,
            others: Seq::from_vec(vec![in alloc; operand]?),
        }),
        site: 1,
    })
}

fn local(alloc: Global, sort: Sort) -> Result<Local, NoMemory> {
    Ok(Local {
        sort,
        name: name(alloc)?,
        label: FIRST,
    })
}

fn transfer(alloc: Global) -> Result<Method, NoMemory> {
    let locals = vec![in alloc;
        local(alloc, Sort::Class(FIRST))?,
        local(alloc, Sort::Class(FIRST))?,
        local(alloc, Sort::Number(Width::Int))?,
    ]?;
    let body = vec![in alloc;
        moved(alloc, FIRST, Operator::Subtract)?,
        moved(alloc, SECOND, Operator::Add)?,
    ]?;
    Ok(Method {
        name: name(alloc)?,
        parameters: 3,
        locals: Seq::from_vec(locals),
        returns: None,
        begin: FIRST,
        fails: true,
        authority: Seq::new(alloc),
        body: Seq::from_vec(body),
        result: None,
    })
}

fn root(alloc: Global, number: u32, balance: i32) -> Result<Root, NoMemory> {
    Ok(Root {
        name: name(alloc)?,
        oid: account(number),
        values: Seq::from_slice(alloc, &[Value::Int(balance)])?,
    })
}

fn asked(alloc: Global) -> Result<Asked, NoMemory> {
    let args = [
        Value::Ref(account(0)),
        Value::Ref(account(1)),
        Value::Int(5),
    ];
    Ok(Asked {
        request: Request {
            worker: 0,
            number: 1,
            method: 0,
            args: Seq::from_slice(alloc, &args)?,
        },
        at: 0,
    })
}

fn program(alloc: Global) -> Result<Resolved, NoMemory> {
    let session = Session {
        worker: FIRST,
        requests: Seq::from_vec(vec![in alloc; asked(alloc)?]?),
    };
    let roots = vec![in alloc; root(alloc, 0, 100)?, root(alloc, 1, 0)?]?;
    Ok(Resolved {
        nodes: Seq::new(alloc),
        pairs: Seq::new(alloc),
        labels: Seq::new(alloc),
        classes: Seq::new(alloc),
        methods: Seq::from_vec(vec![in alloc; transfer(alloc)?]?),
        roots: Seq::from_vec(roots),
        sessions: Seq::from_vec(vec![in alloc; session]?),
        posts: Seq::new(alloc),
        crashes: Seq::new(alloc),
        cache: 0,
        schedule: Seq::new(alloc),
    })
}

fn decision(alloc: Global, commit: bool) -> Result<Logged, NoMemory> {
    let note = Note::Decided {
        tid: TID,
        request: 1,
        commit,
        answers: Seq::new(alloc),
    };
    Ok(Logged {
        event: Event::Deliver(1, 0),
        bytes: Seq::new(alloc),
        notes: Seq::from_vec(vec![in alloc; note]?),
        whole: true,
        marked: false,
    })
}

fn has(map: &ObjectMap, number: u32, balance: i32) -> bool {
    match map.get(account(number)) {
        Some(object) => object.fields.as_slice().get(0).copied() == Some(Value::Int(balance)),
        None => false,
    }
}

fn replayed(alloc: Global, classes: u64, commit: bool) -> Result<ObjectMap, NoMemory> {
    let log = vec![in alloc; decision(alloc, commit)?]?;
    let done = commits(alloc, &log)?;
    replay(alloc, &program(alloc)?, classes, done.as_slice())
}

#[test]
fn a_commit_is_done_again(rt: HostRuntime) -> Result<(), Fail> {
    let map = replayed(rt.alloc(), 1, true)?;
    assert!(rt; has(&map, 0, 95));
    assert!(rt; has(&map, 1, 5));
    Ok(())
}

#[test]
fn what_came_to_nothing_is_not(rt: HostRuntime) -> Result<(), Fail> {
    let map = replayed(rt.alloc(), 1, false)?;
    assert!(rt; has(&map, 0, 100));
    Ok(())
}

#[test]
fn other_classes_are_left_out(rt: HostRuntime) -> Result<(), Fail> {
    let map = replayed(rt.alloc(), 2, true)?;
    assert_eq!(rt; map.rows().len(), 0);
    Ok(())
}
