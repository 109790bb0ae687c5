// Frames.
ghost use Rattle.std.specs.Prelude.{◌≡◌, IfOk, Option, Some, None};
ghost use Rattle.tx_tree.specs.WideTree.{children_of};
ghost use Rattle.tx_origin.specs.TaggedTrees.{tagged_of, kids_of};
ghost use Rattle.tx_exec_form.specs.Frames.{argument_in, caller_of};
ghost use Rattle.tx_exec.specs.FrameView.{frame_in, frame_by, found_of};

use crate::argument::Argument;
use crate::binding::Binding;
use crate::macros::{all_arguments, argument_of};
use std::alloc::Global;
use std::marker::Model;
use tx_base::Memory;
use tx_origin::Tagged;
use tx_tree::Tree;

/// A frame: a `macro` or an `xmacro`, whose parameters they are, the tag that calls it, whose children are the
/// arguments, and the caller's frame.
#[derive(Drop)]
pub(crate) struct Call<'a> {
    binding: Binding,
    meaning: &'a Tree,
    tag: &'a Tagged,
    caller: Option<&'a Call<'a>>,
}

impl<'a> Model for Call<'a> {
    ghost use Rattle.tx_exec_form.specs.Frames.{Frame};
    ghost use Rattle.tx_exec.specs.FrameCode.{coded_Frame};

    ghost Value = { Frame };

    ghost coded = { coded_Frame };

    ghost use Rattle.tx_exec.specs.FrameView.{frame_of, frame_depth};

    ghost view = { frame_of };

    ghost size = { frame_depth };

    ghost use Rattle.std.proofs.Common.{arith};
    ghost use Rattle.tx_exec.specs.FrameFalls.{frame_deeper};

    ghost size_decreases = { λ f h. Prim.grind (arith, frame_deeper) };
}

impl<'a> Call<'a> {
    /// The frame of this `macro` or `xmacro`, called by this tag in the frame of the caller.
    pub(crate) fn new(
        binding: Binding,
        meaning: &'a Tree,
        tag: &'a Tagged,
        caller: Option<&'a Call<'a>>,
    ) -> Call<'a>
        ensures { result
            ≡ frame_by binding (children_of meaning.now) (kids_of (tagged_of tag.now)) (frame_in caller.entry) }
    {
        Call {
            binding,
            meaning,
            tag,
            caller,
        }
    }

    /// The frame of the caller.
    pub(crate) fn caller(&self) -> Option<&'a Call<'a>>
        ensures { frame_in result ≡ caller_of self.now }
    {
        self.caller
    }

    /// What the name has.
    pub(crate) fn argument(&self, alloc: Global, name: &[u8]) -> Result<Argument, Memory>
        ensures { IfOk result (λ r. found_of r ≡ argument_in name.now self.now) }
    {
        match self.binding {
            Binding::Each => argument_of(alloc, self.meaning, self.tag, name),
            Binding::All => all_arguments(self.meaning, self.tag, name),
        }
    }
}

/// The frame of the caller, or none where there is no frame.
pub(crate) fn caller_in<'a>(frame: Option<&Call<'a>>) -> Option<&'a Call<'a>>
    ensures { frame_in result ≡ caller_of (frame_in frame.entry) }
{
    match frame {
        None => None,
        Some(call) => call.caller(),
    }
}
