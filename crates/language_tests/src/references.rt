//! A reference, resolved with ample memory.
use myrial_ast::ColRef;
use myrial_scopes::{ItemSchema, Scope};
use rel_base::{Memory, Schema, Text};
use relation_csv::{RelFault, read_relation};
use std::alloc::Global;

/// The place that `$0` means where there is one item.
fn first_place(alloc: Global, alias: &Text, schema: &Schema) -> Result<Option<u32>, Memory> {
    let items = vec![in alloc; ItemSchema::new(alias, schema)]?;
    let scope = Scope::of(alloc, &items)?;
    Ok(scope.place_of(&ColRef::ByPlace(0)))
}

#[test]
fn a_reference_means_a_column(rt: HostRuntime) -> Result<(), RelFault> {
    let alias = Text::of(rt.alloc(), "a")?;
    let relation = read_relation(rt.alloc(), b"x:int\n")?;
    let place = first_place(rt.alloc(), &alias, relation.schema());
    assert_eq!(rt; place, Ok(Some(0)));
    Ok(())
}
