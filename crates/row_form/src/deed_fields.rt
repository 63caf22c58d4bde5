//! How the fields of a deed are written. Each function has the deeds of one subject and passes all others to the next.
#![tactic(auto, using(std::proofs::lemmas::List::append_assoc))]

ghost use Rattle.std.specs.Prelude.{◌≡◌, ◌++◌, OnOk};
ghost use Rattle.cc_names.specs.Formed.{IsDeedFormed};
ghost use Rattle.row_form.specs.Spelled.{fields_of, directory_fields, checkout_fields, type_fields, object_fields};

use crate::writing::{
    put_body, put_flag, put_kind, put_list, put_long, put_name, put_object, put_out, put_pair,
    put_path, put_three, put_two, put_type_kind,
};
use cc_names::memory::NoMemory;
use cc_names::rows::Deed;

/// The fields of a deed, in order.
pub(crate) fn put_fields(out: &mut Vec<u8>, deed: &Deed) -> Result<(), NoMemory>
    requires { IsDeedFormed deed.now }
    ensures { OnOk result (out.new.items ≡ out.old.items ++ fields_of deed.now) }
{
    match deed {
        Deed::Mkview { view } => put_name(out, view),
        Deed::Rmview { view } => put_name(out, view),
        Deed::Setcs { view, text } => {
            put_name(out, view)?;
            put_body(out, text)
        }
        Deed::Put { view, path, text } => {
            put_name(out, view)?;
            put_path(out, path)?;
            put_body(out, text)
        }
        Deed::Rm { view, path } => {
            put_name(out, view)?;
            put_path(out, path)
        }
        _ => put_directory_fields(out, deed),
    }
}

fn put_directory_fields(out: &mut Vec<u8>, deed: &Deed) -> Result<(), NoMemory>
    requires { IsDeedFormed deed.now }
    ensures { OnOk result (out.new.items ≡ out.old.items ++ directory_fields deed.now) }
{
    match deed {
        Deed::Mkelem {
            view,
            directory,
            name,
            kind,
            out: is_out,
        } => {
            put_two(out, view, *directory)?;
            put_name(out, name)?;
            put_kind(out, *kind)?;
            put_flag(out, *is_out)
        }
        Deed::Rmname {
            view,
            directory,
            name,
        } => {
            put_two(out, view, *directory)?;
            put_name(out, name)
        }
        Deed::Mv {
            view,
            directory,
            from_name,
            to_name,
        } => {
            put_two(out, view, *directory)?;
            put_name(out, from_name)?;
            put_name(out, to_name)
        }
        _ => put_checkout_fields(out, deed),
    }
}

fn put_checkout_fields(out: &mut Vec<u8>, deed: &Deed) -> Result<(), NoMemory>
    requires { IsDeedFormed deed.now }
    ensures { OnOk result (out.new.items ≡ out.old.items ++ checkout_fields deed.now) }
{
    match deed {
        Deed::Checkout {
            view,
            element,
            origin,
            reserved,
        } => {
            put_three(out, view, *element, *origin)?;
            put_flag(out, *reserved)
        }
        Deed::Branch {
            view,
            element,
            origin,
            name,
            out: how,
        } => {
            put_three(out, view, *element, *origin)?;
            put_name(out, name)?;
            put_out(out, *how)
        }
        Deed::Save {
            view,
            element,
            text,
        } => {
            put_two(out, view, *element)?;
            put_body(out, text)
        }
        Deed::Checkin { view, element } => put_two(out, view, *element),
        Deed::Uncheckout { view, element } => put_two(out, view, *element),
        _ => put_type_fields(out, deed),
    }
}

fn put_type_fields(out: &mut Vec<u8>, deed: &Deed) -> Result<(), NoMemory>
    requires { IsDeedFormed deed.now }
    ensures { OnOk result (out.new.items ≡ out.old.items ++ type_fields deed.now) }
{
    match deed {
        Deed::Mktype { kind, name } => {
            put_type_kind(out, *kind)?;
            put_name(out, name)
        }
        Deed::Label {
            label,
            element,
            version,
        } => put_three(out, label, *element, *version),
        Deed::Unlabel { label, element } => put_two(out, label, *element),
        Deed::Labels { label, placed } => {
            put_name(out, label)?;
            put_list(out, placed.as_slice())
        }
        Deed::Arrow {
            element,
            tail,
            head,
        } => {
            put_pair(out, *element, *tail)?;
            put_long(out, *head)
        }
        _ => put_object_fields(out, deed),
    }
}

fn put_object_fields(out: &mut Vec<u8>, deed: &Deed) -> Result<(), NoMemory>
    requires { IsDeedFormed deed.now }
    ensures { OnOk result (out.new.items ≡ out.old.items ++ object_fields deed.now) }
{
    match deed {
        Deed::Publish {
            view,
            targets,
            script,
            entries,
            outputs,
        } => {
            put_object(out, view, targets.as_slice(), script, entries.as_slice())?;
            put_list(out, outputs.as_slice())
        }
        Deed::PublishAt {
            view,
            targets,
            script,
            entries,
            outputs,
        } => {
            put_object(out, view, targets.as_slice(), script, entries.as_slice())?;
            put_list(out, outputs.as_slice())
        }
        Deed::Wink { view, object } => put_two(out, view, *object),
        Deed::Drop { view, path } => {
            put_name(out, view)?;
            put_path(out, path)
        }
        Deed::Scrub { objects } => put_list(out, objects.as_slice()),
        _ => Ok(()),
    }
}
