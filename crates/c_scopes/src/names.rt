//! The names that are in scope at a place of a unit.

ghost use Rattle.std.specs.Prelude.{◌≡◌, is_some, length, map, if◌then◌else◌};
ghost use Rattle.std.specs.List.{list_any};
ghost use Rattle.std.specs.Option.{option_map};
ghost use Rattle.iv_words.specs.Words.{same_word};
ghost use Rattle.c_ast.specs.Names.{named};
ghost use Rattle.c_ast.specs.StaticTypes as static_types;
ghost use Rattle.c_text.specs.Scopes as scopes;
ghost use Rattle.c_scopes.specs.Scope.{entity_view, entity_found, params_view, first_type, rest_types, signature_view, signature_found, stop_alone, functions_view, values_view, names_view};
ghost use Rattle.c_scopes.specs.Shapes.{place_view};
ghost use Rattle.c_scopes.specs.StructViews.{structs_view};
ghost use Rattle.c_scopes.specs.Views.{type_view};

use crate::shapes::{PlaceType, shape_of};
use crate::structs::Structs;
use crate::types::{Base, Wanted, wanted_of};
use c_ast::{CExtern, CFunction, CKind, CParam, CScalar, CType, Target};
use iv_words::{IntKind, Word};
use name_tables::{NameTable, ScopeTable};

/// What a name is declared as: a value that it holds for good, or an object with its `const`.
#[derive(Clone, Copy, Drop)]
pub enum Entity<'u> {
    Number(CScalar),
    Pointer(bool, Base<'u>),
    Object(bool, Base<'u>),
}

/// A function that can be called: `ivory_stop`, or one that the unit declares.
#[derive(Clone, Copy, Drop)]
pub enum Signature<'u> {
    Stop,
    Extern(&'u CExtern),
    Function(&'u CFunction),
}

/// The structs, the functions that can be called and the objects of file scope that are declared before a place, the function that
/// the place stands in, and the names in that, the latest last.
#[derive(Drop)]
pub struct Names<'u> {
    pub target: Target,
    pub structs: Structs<'u>,
    pub functions: NameTable<'u, Signature<'u>>,
    pub objects: NameTable<'u, Entity<'u>>,
    pub itself: Option<&'u Word>,
    pub values: ScopeTable<'u, Entity<'u>>,
}

/// What a name was declared as last, save a function.
#[tactic(auto, using(crate::proofs::ScopeLists::entity_first, crate::proofs::ScopeLists::entity_behind))]
fn latest_entity<'u>(
    objects: &NameTable<'u, Entity<'u>>,
    values: &ScopeTable<'u, Entity<'u>>,
    name: &Word,
) -> Option<Entity<'u>>
    ensures { entity_found result ≡ named (values_view objects.now values.now) name.now }
{
    match values.find(name) {
        Some(entity) => Some(entity),
        None => objects.find(name),
    }
}

/// `ivory_stop`, where the name is its.
fn stop_found<'u>(name: &Word) -> Option<Signature<'u>>
    ensures { signature_found result ≡ named stop_alone name.now }
{
    if b"ivory_stop".as_slice() == name.as_slice() {
        Some(Signature::Stop)
    } else {
        None
    }
}

/// The function of a name that can be called.
#[tactic(auto, using(crate::proofs::ScopeLists::function_first, crate::proofs::ScopeLists::function_behind))]
fn latest_function<'u>(
    functions: &NameTable<'u, Signature<'u>>,
    name: &Word,
) -> Option<Signature<'u>>
    ensures { signature_found result ≡ named (functions_view functions.now) name.now }
{
    match functions.find(name) {
        Some(signature) => Some(signature),
        None => stop_found(name),
    }
}

impl<'u> Signature<'u> {
    /// The type of the result.
    pub fn result(&self) -> Wanted<'u>
        ensures { type_view result ≡ (signature_view self.now).result }
    {
        match self {
            Signature::Stop => Wanted::Void,
            Signature::Extern(declared) => wanted_of(&declared.result),
            Signature::Function(declared) => wanted_of(&declared.result),
        }
    }

    /// The number of parameters.
    pub fn params(&self) -> usize
        ensures { result ≡ length (signature_view self.now).params }
    {
        match self {
            Signature::Stop => 1,
            Signature::Extern(declared) => declared.params.len(),
            Signature::Function(declared) => declared.params.len(),
        }
    }

    /// The types of the parameters, from the first on.
    pub fn types(&self) -> Params<'u>
        ensures { params_view result ≡ (signature_view self.now).params }
    {
        match self {
            Signature::Stop => Params::Stop,
            Signature::Extern(declared) => Params::Types(declared.params.as_slice()),
            Signature::Function(declared) => Params::Named(declared.params.as_slice()),
        }
    }
}

/// The types of parameters that no argument is given for yet.
#[derive(Clone, Copy, Drop)]
pub enum Params<'u> {
    None,
    Stop,
    Types(&'u [CType]),
    Named(&'u [CParam]),
}

impl<'u> Params<'u> {
    pub fn first(&self) -> Option<Wanted<'u>>
        ensures { option_map type_view result ≡ first_type (params_view self.now) }
    {
        match self {
            Params::None => None,
            Params::Stop => Some(Wanted::Scalar(CScalar::Int(IntKind::U32))),
            Params::Types(types) => first_of_types(types),
            Params::Named(params) => first_of_params(params),
        }
    }

    /// Those behind the first.
    pub fn rest(&self) -> Params<'u>
        ensures { params_view result ≡ rest_types (params_view self.now) }
    {
        match self {
            Params::None | Params::Stop => Params::None,
            Params::Types(types) => rest_of_types(types),
            Params::Named(params) => rest_of_params(params),
        }
    }
}

fn first_of_types<'u>(types: &'u [CType]) -> Option<Wanted<'u>>
    ensures { option_map type_view result ≡ first_type types.now }
{
    match types.split_first() {
        None => None,
        Some((first, _)) => Some(wanted_of(first)),
    }
}

fn first_of_params<'u>(params: &'u [CParam]) -> Option<Wanted<'u>>
    ensures { option_map type_view result ≡ first_type (map (λ x. x.ty) params.now) }
{
    match params.split_first() {
        None => None,
        Some((first, _)) => Some(wanted_of(&first.ty)),
    }
}

fn rest_of_types<'u>(types: &'u [CType]) -> Params<'u>
    ensures { params_view result ≡ rest_types types.now }
{
    match types.split_first() {
        None => Params::None,
        Some((_, rest)) => Params::Types(rest),
    }
}

fn rest_of_params<'u>(params: &'u [CParam]) -> Params<'u>
    ensures { params_view result ≡ rest_types (map (λ x. x.ty) params.now) }
{
    match params.split_first() {
        None => Params::None,
        Some((_, rest)) => Params::Named(rest),
    }
}

/// The type of a place that is named.
fn of_entity<'u>(structs: Structs<'u>, entity: &Entity<'u>) -> PlaceType<'u>
    ensures { place_view result ≡ Some (static_types.of_entity (structs_view structs.entry) (entity_view entity.now)) }
{
    match entity {
        Entity::Number(scalar) => PlaceType::HeldNumber(CKind::Scalar(*scalar)),
        Entity::Pointer(constant, base) => PlaceType::HeldPointer(*constant, *base),
        Entity::Object(constant, base) => PlaceType::Stored(*constant, shape_of(structs, base)),
    }
}

impl<'u> Names<'u> {
    /// What a name was declared as last, save a function.
    pub fn entity(&self, name: &Word) -> Option<Entity<'u>>
        ensures { entity_found result ≡ named (names_view self.now).values name.now }
    {
        latest_entity(&self.objects, &self.values, name)
    }

    /// The function of a name that can be called.
    pub fn called(&self, name: &Word) -> Option<Signature<'u>>
        ensures { signature_found result ≡ named (names_view self.now).functions name.now }
    {
        latest_function(&self.functions, name)
    }

    /// Whether a name is that of the function that the place stands in.
    fn is_itself(&self, name: &Word) -> bool
        ensures { result ≡ list_any (same_word name.now) (names_view self.now).itself }
    {
        match self.itself {
            None => false,
            Some(itself) => *name == *itself,
        }
    }

    pub fn is_function(&self, name: &Word) -> bool
        ensures { result ≡ scopes.is_function (names_view self.now) name.now }
    {
        self.called(name).is_some() || self.is_itself(name)
    }

    /// Whether a name is in scope.
    pub fn is_taken(&self, name: &Word) -> bool
        ensures { result ≡ scopes.is_taken (names_view self.now) name.now }
    {
        self.entity(name).is_some() || self.is_function(name)
    }

    pub fn in_function(&self) -> bool
        ensures { result ≡ (names_view self.now).in_function }
    {
        self.itself.is_some()
    }

    /// The type of a place that a name gives, which at file scope has none.
    pub fn place_of(&self, entity: &Option<Entity<'u>>) -> PlaceType<'u>
        ensures { place_view result ≡ option_map (static_types.of_entity (structs_view self.now.structs)) (if is_some self.now.itself then entity_found entity.now else None) }
    {
        match self.itself {
            None => PlaceType::Unknown,
            Some(_) => match entity {
                None => PlaceType::Unknown,
                Some(entity) => of_entity(self.structs, entity),
            },
        }
    }

    pub fn is_tag(&self, tag: &Word) -> bool
        ensures { result ≡ scopes.is_tag (names_view self.now) tag.now }
    {
        self.structs.has(tag)
    }
}
