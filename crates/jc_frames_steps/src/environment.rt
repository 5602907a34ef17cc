//! What stays the same while the code of a method is checked.
ghost use Rattle.std.specs.Prelude.{◌≡◌, IfOk};
ghost use Rattle.std.specs.Option.{option_copied};
ghost use Rattle.jc_frames_steps.specs.Placed.{frame_at as frame_by, ins_at as ins_by};

use crate::Places;
use crate::places::{places_of_frames, starts_of};
use jc_class_out::{ClassModel, CodeModel, Frame, Ins, MethodModel};
use jc_frames_types::Supertypes;
use jc_rules::WantOfMemory;
use std::alloc::Global;
use std::marker::Model;

/// The classes, the method whose code is checked, and where its frames and instructions stand (JVMS 4.10.1.1).
#[derive(Drop)]
pub struct Environment<'a> {
    types: &'a Supertypes<'a>,
    class: &'a ClassModel,
    method: &'a MethodModel,
    code: &'a CodeModel,
    frames: Places,
    starts: Places,
}

impl<'a> Model for Environment<'a> {
    ghost use Rattle.std.specs.Prelude.{◌≡◌};
    ghost use Rattle.jc_frames_steps.specs.Placed.{Environment as Env, starts_from, frame_places};

    ghost Value = { Env };

    ghost view = { λ e. record { classes = e.types.now; class = e.class.now; method = e.method.now; code = e.code.now } };

    ghost invariant = { λ e. (e.frames ≡ frame_places e.code.now.frames) × (e.starts ≡ starts_from 0 e.code.now.ins) };
}

impl<'a> Environment<'a> {
    pub fn of(
        alloc: Global,
        types: &'a Supertypes<'a>,
        class: &'a ClassModel,
        method: &'a MethodModel,
        code: &'a CodeModel,
    ) -> Result<Environment<'a>, WantOfMemory>
        ensures { IfOk result (λ e. e ≡ record { classes = types.now; class = class.now; method = method.now; code = code.now }) }
    {
        let frames = Places::of(alloc, places_of_frames(alloc, code.frames.slice())?)?;
        let starts = Places::of(alloc, starts_of(alloc, code.ins.slice())?)?;
        Ok(Environment {
            types,
            class,
            method,
            code,
            frames,
            starts,
        })
    }

    pub fn types(&self) -> &'a Supertypes<'a>
        ensures { result.now ≡ self.now.classes }
    {
        self.types
    }

    pub fn class(&self) -> &'a ClassModel
        ensures { result.now ≡ self.now.class }
    {
        self.class
    }

    pub fn method(&self) -> &'a MethodModel
        ensures { result.now ≡ self.now.method }
    {
        self.method
    }

    pub fn code(&self) -> &'a CodeModel
        ensures { result.now ≡ self.now.code }
    {
        self.code
    }

    /// The frame at an offset.
    pub fn frame_at(&self, at: u32) -> Option<&'a Frame>
        ensures { option_copied result ≡ frame_by self.now.code.frames at }
    {
        match self.frames.number(at) {
            Some(number) => self.code.frames.get(number),
            None => None,
        }
    }

    /// The instruction at an offset.
    pub fn ins_at(&self, at: u32) -> Option<&'a Ins>
        ensures { option_copied result ≡ ins_by self.now.code.ins at }
    {
        match self.starts.number(at) {
            Some(number) => self.code.ins.get(number),
            None => None,
        }
    }
}
