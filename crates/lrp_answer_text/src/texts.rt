// The JSON texts of the constants of a domain.
ghost use Rattle.std.specs.Prelude.{◌≡◌, List as ListOf, map, IfOk, IfSome};
ghost use Rattle.lrp_model.specs.Printed.{quoted};
ghost use Rattle.lrp_model.specs.Texts.{Text};
ghost use Rattle.lrp_answer_text.specs.Lines.{IsFormOf, is_json};

use lrp_model::{Copies, DataText, Domain, List, Memory};
use serde_json::Value;
use std::alloc::Global;
use std::marker::Model;

/// The JSON text of each constant of a domain, in the domain's order, so that a line takes no memory.
#[derive(Drop)]
pub struct JsonTexts {
    texts: List<List<u8>>,
}

impl Model for JsonTexts {
    ghost use Rattle.std.specs.Prelude.{ℕ, List as ListOf};

    ghost Value = { ListOf (ListOf ℕ) };

    ghost view = { λ a. a.texts };
}

/// How the line of an answer is written.
#[derive(Drop)]
pub enum Form {
    Plain,
    Json { texts: JsonTexts },
}

impl JsonTexts {
    /// The constants of the domain between quotes, with a backslash before each quote and each backslash.
    ///
    /// A constant has no control character, so in JSON no other byte needs one.
    pub fn new(alloc: Global, domain: &Domain) -> Result<JsonTexts, Memory>
        ensures { IfOk result (λ made. made ≡ map quoted domain.now) }
    {
        let mut texts = List::new(alloc);
        for number in 0..domain.len() {
            texts.push(quoted_text(alloc, domain.text(number))?)?;
        }
        Ok(JsonTexts { texts })
    }

    /// The JSON texts, in order.
    pub(crate) fn as_slice(&self) -> &[List<u8>]
        ensures { result.now ≡ self.now }
    {
        self.texts.as_slice()
    }
}

impl Form {
    /// Whether lines are JSON.
    pub fn is_json(&self) -> bool
        ensures { result ≡ is_json self.now }
    {
        matches!(self, Form::Json { .. })
    }

    /// The JSON texts, where lines are JSON.
    pub(crate) fn texts(&self) -> Option<&JsonTexts>
        ensures { (domain : ListOf Text) → IsFormOf domain self.now
            → IfSome result (λ texts. texts.now ≡ map quoted domain) }
    {
        match self {
            Form::Plain => None,
            Form::Json { texts } => Some(texts),
        }
    }
}

impl Copies for JsonTexts {
    fn copy(&self, alloc: Global) -> Result<Self, Memory> {
        Ok(JsonTexts {
            texts: copies_of(alloc, self.as_slice())?,
        })
    }
}

impl Copies for Form {
    fn copy(&self, alloc: Global) -> Result<Self, Memory> {
        match self {
            Form::Plain => Ok(Form::Plain),
            Form::Json { texts } => Ok(Form::Json {
                texts: texts.copy(alloc)?,
            }),
        }
    }
}

// Equal texts, in order.
fn copies_of(alloc: Global, texts: &[List<u8>]) -> Result<List<List<u8>>, Memory>
    ensures { IfOk result (λ made. made ≡ texts.now) }
{
    let mut made = List::new(alloc);
    for text in texts {
        made.push(text.copy_bytes(alloc)?)?;
    }
    Ok(made)
}

// A text between quotes, as JSON has it.
fn quoted_text(alloc: Global, text: &DataText) -> Result<List<u8>, Memory>
    ensures { IfOk result (λ made. made ≡ quoted text.now) }
{
    let value = Value::String(String::from_str(alloc, text.as_str())?);
    Ok(List::from_vec(value.to_string(alloc)?.into_bytes()))
}
