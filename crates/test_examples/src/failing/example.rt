//! Examples, and the parsing of their files.
use crate::failing::connections::REQUEST_END;
use crate::failing::run::ExampleRun;
use crate::failing::{connections, import, script, texts};
use std::alloc::{AllocError, Global};
use test_office::Store;

/// The kind of an example, which determines what its steps are.
#[derive(Clone, Copy, Debug, PartialEq, Eq)]
pub enum ExampleKind {
    Script,
    Import,
    Texts,
    Connections,
}

/// An example: requests that fill a store, and steps to run in it.
#[derive(Clone, Copy, Drop)]
pub struct Example<'a> {
    pub requests: &'a str,
    pub kind: ExampleKind,
    pub steps: &'a str,
}

impl<'a> Example<'a> {
    /// Parses an example: its requests, a line `@` with the name of the kind, and its steps.
    /// Returns `None` for an unknown kind.
    pub fn read(text: &'a str) -> Option<Example<'a>> {
        let (requests, rest) = text.split_once("@ ")?;
        let (name, steps) = rest.split_once('\n')?;
        let kind = match name {
            "script" => ExampleKind::Script,
            "import" => ExampleKind::Import,
            "texts" => ExampleKind::Texts,
            "connections" => ExampleKind::Connections,
            _ => return None,
        };
        Some(Example {
            requests,
            kind,
            steps,
        })
    }

    /// Runs these steps in a store, as the kind of the example requires.
    pub fn run(&self, alloc: Global, store: &mut Store, steps: &str) -> ExampleRun {
        match self.kind {
            ExampleKind::Script => script::run(alloc, store, steps),
            ExampleKind::Import => import::run(alloc, store, steps),
            ExampleKind::Texts => texts::run(alloc, store, steps),
            ExampleKind::Connections => connections::run(alloc, store, steps),
        }
    }

    /// Returns the text of the steps that were performed.
    pub fn performed(&self, alloc: Global, run: &ExampleRun) -> Result<String, AllocError> {
        let end = if self.kind == ExampleKind::Connections {
            REQUEST_END
        } else {
            "\n"
        };
        let mut performed = String::new(alloc);
        for (step, is_performed) in self.steps.split_inclusive(end).zip(&run.performed) {
            if *is_performed {
                performed.push_str(step)?;
            }
        }
        Ok(performed)
    }
}
