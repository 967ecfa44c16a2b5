//! A store of many JSON Schemas, each known by its URI: what a `$id` adds, and which schema a `$ref`
//! names.
ghost use Rattle.std.specs.Prelude.{◌≡◌, ◌⊎◌, IfOk, IfErr, IsSome, OnErr, OnOk, Ok, Err, None, Some, if◌then◌else◌};
ghost use Rattle.uriparse.specs.Reference.{Parts};
ghost use Rattle.uriparse.specs.Target.{target};
ghost use Rattle.uriparse.specs.Uri.{base as without_fragment};
ghost use Rattle.uriparse.specs.TargetError.TheVariants.{OutOfMemory, TooManySegments};
ghost use Rattle.examples.specs.Equal.{is_equal};
ghost use Rattle.examples.specs.SchemaStore.{IsUntargeted, known};
ghost use Rattle.examples.specs.declared.schema_store.SchemaError.TheVariants.{Taken, Memory, Target};

use std::alloc::{AllocFailed, Global};
use std::collections::HashMap;
use thiserror::Error;
use uriparse::{ReferenceText, ReferenceView, TargetError, URIView};

/// Schemas by their URIs, which have no fragments: for each the index that it was added with. A URI
/// takes its text and 64 bytes.
pub type Schemas = HashMap<ReferenceText, usize>;

/// Why a schema isn't added.
#[derive(Debug, Drop, Error)]
pub enum SchemaError {
    /// A schema is known by an equal URI.
    #[error("the identifier is taken")]
    Taken,
    /// The identifier has no target against the base.
    #[error(transparent)]
    Target(TargetError),
    #[error("out of memory")]
    Memory,
}

impl From<TargetError> for SchemaError {
    ghost from_gives = { λ x e. e ≡ Target x };

    fn from(error: TargetError) -> SchemaError {
        SchemaError::Target(error)
    }
}

impl<T: Drop> From<AllocFailed<T>> for SchemaError {
    ghost from_gives = { λ _ e. e ≡ Memory };

    fn from(_error: AllocFailed<T>) -> SchemaError {
        SchemaError::Memory
    }
}

/// The URI that a reference in the schema of this URI names, without its fragment. Allocates once.
fn resolve(
    alloc: Global,
    base: &URIView<'_>,
    reference: &ReferenceView<'_>,
) -> Result<ReferenceText, TargetError>
    ensures ok { IfOk result (λ v. (t : Parts) × (target base.now.parts reference.now.parts ≡ Some t) × (v.parts ≡ without_fragment t)) }
    ensures err { IfErr result (λ e. IsUntargeted base.now.parts reference.now.parts e) }
{
    let text = base.resolve_to_text(alloc, reference)?;
    Ok(text.into_reference_text().without_fragment())
}

/// The index of the schema that a `$ref` names: it is resolved against the URI of the schema that it
/// stands in, and its fragment, which names a place in the schema, is left out. A URI that differs
/// only by percent-encoding of unreserved characters, or by the case of letters where it doesn't
/// count, names the same schema. Allocates the text of the target.
///
/// Fails if the `$ref` has no target, since its path and the base's together have too many segments,
/// or if memory runs out.
///
/// ```
/// let mut schemas = Schemas::new(alloc);
/// let base = URIView::try_from_str("http://h/schemas/a.json")?;
/// add(alloc, &mut schemas, &base, &ReferenceView::try_from_str("/%7Es/b.json#")?, 7)?;
/// let reference = ReferenceView::try_from_str("../~s/b.json#/definitions/x")?;
/// assert!(find(alloc, &schemas, &base, &reference)? == Some(7));
/// assert!(find(alloc, &schemas, &base, &ReferenceView::try_from_str("#")?)?.is_none());
/// ```
pub fn find(
    alloc: Global,
    schemas: &Schemas,
    base: &URIView<'_>,
    reference: &ReferenceView<'_>,
) -> Result<Option<usize>, TargetError>
    ensures found { IfOk result (λ index. (t : Parts) × (target base.now.parts reference.now.parts ≡ Some t) × (index ≡ known schemas.now (without_fragment t))) }
    ensures refused { IfErr result (λ e. IsUntargeted base.now.parts reference.now.parts e) }
{
    let uri = resolve(alloc, base, reference)?;
    Ok(schemas.get(&uri).copied())
}

/// Adds a schema under its `$id`, which is resolved against the URI that it was fetched from and loses
/// its fragment. Allocates the text of the URI, and room for it among the others.
///
/// Fails with [`Taken`](SchemaError::Taken) if a schema is known by an equal URI, with
/// [`Target`](SchemaError::Target) if the `$id` has no target or its text finds no memory, or with
/// [`Memory`](SchemaError::Memory). After an error the same schemas are known as before.
pub fn add(
    alloc: Global,
    schemas: &mut Schemas,
    base: &URIView<'_>,
    id: &ReferenceView<'_>,
    index: usize,
) -> Result<(), SchemaError>
    // The URI names the schema, and each other URI what it named before.
    ensures added { OnOk result ((t : Parts) × (target base.now.parts id.now.parts ≡ Some t) × (known schemas.old (without_fragment t) ≡ None)
        × ((p : Parts) → known schemas.new p ≡ (if is_equal (without_fragment t) p then Some index else known schemas.old p))) }
    ensures unchanged { OnErr result ((p : Parts) → known schemas.new p ≡ known schemas.old p) }
    ensures taken { (t : Parts) → target base.now.parts id.now.parts ≡ Some t → IsSome (known schemas.old (without_fragment t)) → (result ≡ Err Taken) ⊎ (result ≡ Err (Target OutOfMemory)) }
    ensures free { (t : Parts) → target base.now.parts id.now.parts ≡ Some t → known schemas.old (without_fragment t) ≡ None
        → (result ≡ Ok tt) ⊎ ((result ≡ Err Memory) ⊎ (result ≡ Err (Target OutOfMemory))) }
    ensures untargeted { target base.now.parts id.now.parts ≡ None → (result ≡ Err (Target TooManySegments)) ⊎ (result ≡ Err (Target OutOfMemory)) }
{
    let uri = resolve(alloc, base, id)?;
    if schemas.contains_key(&uri) {
        return Err(SchemaError::Taken);
    }
    schemas.insert(uri, index)?;
    Ok(())
}
