ghost use Rattle.std.specs.Prelude.{◌≡◌, IfOk};
ghost use Rattle.affine_forms.specs.WellFormed.{IsProblem};

use crate::forms::FormList;
use affine_forms::{Bytes, Form, WantOfMemory};
use std::alloc::Global;
use std::marker::Model;

/// Unknowns, parameters, a tableau, a context, the mode and a comment, within the limits.
///
/// A tableau row is a form over the unknowns and then the parameters, a context row one over the parameters; each says
/// that its value is at least 0 (Feautrier, RAIRO 1988; the PIP/PipLib user's guide).
#[derive(Drop)]
pub struct Problem {
    unknowns: usize,
    params: usize,
    rows: FormList,
    context: FormList,
    integer: bool,
    comment: Bytes,
}

impl Model for Problem {
    ghost use Rattle.affine_forms.specs.Problem.{Problem as Described};
    ghost use Rattle.affine_forms.specs.WellFormed.{IsProblem};

    ghost Value = { Described };

    ghost view = { λ p. record {
      unknowns = p.unknowns;
      params = p.params;
      rows = p.rows;
      context = p.context;
      integer = p.integer;
      comment = p.comment;
    } };

    ghost invariant = { λ p. IsProblem (record {
      unknowns = p.unknowns;
      params = p.params;
      rows = p.rows;
      context = p.context;
      integer = p.integer;
      comment = p.comment;
    }) };
}

impl Problem {
    /// The problem of these parts, which are copied.
    pub fn try_new(
        alloc: Global,
        unknowns: usize,
        params: usize,
        rows: &[Form],
        context: &[Form],
        integer: bool,
        comment: &[u8],
    ) -> Result<Problem, WantOfMemory>
        requires { IsProblem (record {
          unknowns = unknowns;
          params = params;
          rows = rows.now;
          context = context.now;
          integer = integer;
          comment = comment.now;
        }) }
        ensures { IfOk result (λ p. p ≡ record {
          unknowns = unknowns;
          params = params;
          rows = rows.now;
          context = context.now;
          integer = integer;
          comment = comment.now;
        }) }
    {
        let rows = FormList::try_new(alloc, rows)?;
        let context = FormList::try_new(alloc, context)?;
        let comment = Bytes::try_new(alloc, comment)?;
        Ok(Problem {
            unknowns,
            params,
            rows,
            context,
            integer,
            comment,
        })
    }

    /// The problem of these parts, none of which is copied.
    pub fn from_parts(
        unknowns: usize,
        params: usize,
        rows: Vec<Form>,
        context: Vec<Form>,
        integer: bool,
        comment: Bytes,
    ) -> Problem
        requires { IsProblem (record {
          unknowns = unknowns;
          params = params;
          rows = rows.items;
          context = context.items;
          integer = integer;
          comment = comment;
        }) }
        ensures { result ≡ record {
          unknowns = unknowns;
          params = params;
          rows = rows.items;
          context = context.items;
          integer = integer;
          comment = comment;
        } }
    {
        Problem {
            unknowns,
            params,
            rows: FormList::new(rows),
            context: FormList::new(context),
            integer,
            comment,
        }
    }

    /// The tableau's rows and those of the context, none of which is copied.
    pub fn into_rows(self) -> (Vec<Form>, Vec<Form>)
        ensures rows { result.0.items ≡ self.rows }
        ensures context { result.1.items ≡ self.context }
    {
        (self.rows.into_items(), self.context.into_items())
    }

    /// The number of unknowns, at least 1.
    pub fn unknowns(&self) -> usize
        ensures value { result ≡ self.now.unknowns }
        ensures problem { IsProblem self.now }
    {
        self.unknowns
    }

    /// The number of parameters.
    pub fn params(&self) -> usize
        ensures value { result ≡ self.now.params }
        ensures problem { IsProblem self.now }
    {
        self.params
    }

    /// The tableau's rows, forms over the unknowns and then the parameters.
    pub fn rows(&self) -> &[Form]
        ensures value { result.now ≡ self.now.rows }
        ensures problem { IsProblem self.now }
    {
        self.rows.as_slice()
    }

    /// The context's rows, forms over the parameters.
    pub fn context(&self) -> &[Form]
        ensures value { result.now ≡ self.now.context }
        ensures problem { IsProblem self.now }
    {
        self.context.as_slice()
    }

    /// Whether whole points are asked for; else rational ones are.
    pub fn integer(&self) -> bool
        ensures { result ≡ self.now.integer }
    {
        self.integer
    }

    /// The comment, a group with its brackets as it was read.
    pub fn comment(&self) -> &Bytes
        ensures { result.now ≡ self.now.comment }
    {
        &self.comment
    }
}
