//! A caller of the library from another crate, with a contract of its own that is proved from the
//! library's.
#![tactic(auto)]

ghost use Rattle.std.specs.Prelude.{◌≡◌, [], IfOk, string_bytes};
ghost use Rattle.bson_store.specs.Pairs.{insert_pair};
ghost use Rattle.bson.specs.View.{contents};
ghost use Rattle.bson.specs.declared.bson.Bson.TheVariants as value;

use bson::document::Refused;
use bson::{Bson, Document};
use std::alloc::Global;

/// Returns the document with one pair, the key and the count.
fn document_with_count(alloc: Global, key: String, count: i32) -> Result<Document, Refused>
    ensures has_pair { IfOk result
        (λ document. contents document ≡ insert_pair (string_bytes key) (value.Int32 count) []) }
{
    let mut document = Document::new(alloc);
    // A refused insertion hands the pair back and leaves the document as it was.
    drop(document.insert(key, Bson::Int32(count))?);
    Ok(document)
}

fn main(rt: HostRuntime) -> anyhow::Result<()> {
    let alloc = rt.alloc();
    let key = String::from_str(alloc, "apples")?;
    let document = document_with_count(alloc, key, 5)?;
    let text = Bson::Document(document).into_canonical_text(alloc)?;
    println!(rt; "{text}")?;
    Ok(())
}
