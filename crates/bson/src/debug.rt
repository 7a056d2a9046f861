//! Debug strings of values: the name of the kind and its content. No contract promises anything
//! about them.
use crate::bson::{Bson, JavaScriptCodeWithScope};
use crate::document::{Document, Refused};
use crate::scalar::scalar_ref;
use bson_store::PairStore;
use std::fmt;

impl fmt::Debug for Bson {
    fn fmt<W: fmt::Write>(&self, formatter: &mut fmt::Formatter<W>) -> fmt::Result {
        debug(self, formatter)
    }
}

impl fmt::Debug for Document {
    fn fmt<W: fmt::Write>(&self, formatter: &mut fmt::Formatter<W>) -> fmt::Result {
        debug_pairs(self, formatter)
    }
}

impl fmt::Debug for JavaScriptCodeWithScope {
    fn fmt<W: fmt::Write>(&self, formatter: &mut fmt::Formatter<W>) -> fmt::Result {
        debug_scoped_code(self, formatter)
    }
}

impl fmt::Debug for Refused {
    fn fmt<W: fmt::Write>(&self, formatter: &mut fmt::Formatter<W>) -> fmt::Result {
        write!(formatter, "Refused {{ key: {:?}, value: ", self.key)?;
        debug(&self.value, formatter)?;
        formatter.write_str(" }")
    }
}

#[cycle(debug)]
fn debug<W: fmt::Write>(value: &Bson, formatter: &mut fmt::Formatter<W>) -> fmt::Result {
    match value {
        Bson::Array(values) => debug_values(values, formatter),
        Bson::Document(document) => debug_pairs(document, formatter),
        Bson::JavaScriptCodeWithScope(code_with_scope) => debug_scoped_code(
            code_with_scope,
            formatter,
        ),
        value => write!(formatter, "{:?}", scalar_ref(value)),
    }
}

#[cycle(debug)]
fn debug_scoped_code<W: fmt::Write>(
    code_with_scope: &JavaScriptCodeWithScope,
    formatter: &mut fmt::Formatter<W>,
) -> fmt::Result {
    write!(
        formatter,
        "JavaScriptCodeWithScope {{ code: {:?}, scope: ",
        code_with_scope.code
    )?;
    debug_pairs(&code_with_scope.scope, formatter)?;
    formatter.write_str(" }")
}

#[cycle(debug)]
fn debug_values<W: fmt::Write>(
    values: &Vec<Bson>,
    formatter: &mut fmt::Formatter<W>,
) -> fmt::Result {
    formatter.write_str("Array([")?;
    let mut separator = "";
    for value in values {
        formatter.write_str(separator)?;
        debug(value, formatter)?;
        separator = ", ";
    }
    formatter.write_str("])")
}

#[cycle(debug)]
fn debug_pairs<W: fmt::Write>(
    document: &Document,
    formatter: &mut fmt::Formatter<W>,
) -> fmt::Result {
    formatter.write_str("Document({")?;
    let mut separator = "";
    for pair_index in 0..document.pairs.len() {
        write!(
            formatter,
            "{separator}{:?}: ",
            document.pairs.key_at(pair_index)
        )?;
        debug(document.pairs.value_at(pair_index), formatter)?;
        separator = ", ";
    }
    formatter.write_str("})")
}
