//! A whole bundle: a program, and what a run of it begins with.

use crate::event::{CrashLine, Event, PostLine};
use crate::expression::Number;
use crate::name::Name;
use crate::program::Program;
use fab_base::Seq;

/// A value as it is written, for a root's field or a request's argument: a number, null, or a root.
#[derive(Debug)]
pub enum Literal {
    Number(Number),
    Null,
    Root(Name),
}

impl Drop for Literal {
    fn drop(self) {
        match self {
            Literal::Number(one) => {}
            Literal::Null => {}
            Literal::Root(one) => {}
        }
    }
}

/// A literal, and the place of its first byte in the source.
#[derive(Debug)]
pub struct Given {
    pub literal: Literal,
    pub at: u32,
}

impl Drop for Given {
    fn drop(self) {
        let Given { literal, at } = self;
    }
}

/// `root r : C @ s (..);`: an object that is there from the start, its class, its store and what its
/// fields begin with.
#[derive(Debug)]
pub struct Root {
    pub name: Name,
    pub class: Name,
    pub store: Name,
    pub values: Seq<Given>,
}

impl Drop for Root {
    fn drop(self) {
        let Root {
            name,
            class,
            store,
            values,
        } = self;
    }
}

/// `m(1, null, r);`: what a session asks for, a method and what its parameters are given.
#[derive(Debug)]
pub struct RequestText {
    pub method: Name,
    pub arguments: Seq<Given>,
}

impl Drop for RequestText {
    fn drop(self) {
        let RequestText { method, arguments } = self;
    }
}

/// `session w { .. }`: what is asked of a worker, in this order.
#[derive(Debug)]
pub struct Session {
    pub worker: Name,
    pub requests: Seq<RequestText>,
}

impl Drop for Session {
    fn drop(self) {
        let Session { worker, requests } = self;
    }
}

/// A whole bundle, in the order of the text. `cache` is how many objects a worker's cache keeps for
/// each store, 0 where the text says nothing of it.
#[derive(Debug)]
pub struct Start {
    pub program: Program,
    pub roots: Seq<Root>,
    pub sessions: Seq<Session>,
    pub posts: Seq<PostLine>,
    pub crashes: Seq<CrashLine>,
    pub cache: u32,
    pub schedule: Seq<Event>,
}

impl Drop for Start {
    fn drop(self) {
        let Start {
            program,
            roots,
            sessions,
            posts,
            crashes,
            cache,
            schedule,
        } = self;
    }
}
