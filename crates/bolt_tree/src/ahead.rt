//! Members that may be read one ahead.
ghost use Rattle.std.specs.Option.{IfNone};
ghost use Rattle.std.specs.Prelude.{◌≤◌, ◌≡◌, ◌↔◌, IfOk, OnErr};
ghost use Rattle.bolt_tree.specs.Aheads.{ahead_ends, ahead_left, ahead_work, head_of};
ghost use Rattle.bolt_tree.specs.declared.ahead.Ahead.{Ahead};
ghost use Rattle.bolt_tree.specs.declared.ahead.FirstMember.TheVariants as firsts;

use crate::entry::Item;
use crate::members::Members;
use bolt_check::NoMemory;

/// What is known of the first member that is left.
#[derive(Clone, Copy)]
pub(crate) enum FirstMember<'a> {
    Unread,
    /// The member was read, and its path is that of the members.
    Read(Item<'a>),
    /// There is none.
    Ended,
}

/// Members that may be read one ahead.
#[derive(Drop)]
pub(crate) struct Ahead<'a, M> {
    pub members: M,
    pub head: FirstMember<'a>,
}

impl<'a, M: Members<'a>> Ahead<'a, M> {
    /// The first member that is left, if any. It stays left.
    #[inline(always)]
    pub fn peek(&mut self) -> Result<Option<Item<'a>>, NoMemory>
        ensures reads { (whole : M.Whole)
            → M.reads self.new.members whole ↔ M.reads self.old.members whole }
        ensures head { IfOk result (λ item. self.new.head ≡ head_of item) }
        ensures left { (whole : M.Whole) → M.reads self.old.members whole
            → ahead_left M.last_path M.left self.new whole
            ≡ ahead_left M.last_path M.left self.old whole }
        ensures work { IfOk result (λ _.
            ahead_work M.work_left self.new ≤ ahead_work M.work_left self.old) }
        ensures same_end { (end : Ahead M)
            → ahead_ends M.ends_as self.new end → ahead_ends M.ends_as self.old end }
        ensures ended { IfOk result (λ item. IfNone item (ahead_ends M.ends_as self.new self.new)) }
        ensures unread { OnErr result (self.old.head ≡ firsts.Unread) }
        ensures same { OnErr result (self.new.head ≡ firsts.Unread) }
        ensures same_path { OnErr result
            (M.last_path self.new.members ≡ M.last_path self.old.members) }
    {
        match self.head {
            FirstMember::Read(item) => Ok(Some(item)),
            FirstMember::Ended => Ok(None),
            FirstMember::Unread => {
                let item = self.members.next()?;
                self.head = match item {
                    Some(item) => FirstMember::Read(item),
                    None => FirstMember::Ended,
                };
                Ok(item)
            }
        }
    }
}

impl<'a, M> Ahead<'a, M> {
    /// Members of which none was read ahead.
    pub fn new(members: M) -> Ahead<'a, M>
        ensures members { result.members ≡ members }
        ensures unread { result.head ≡ firsts.Unread }
    {
        Ahead {
            members,
            head: FirstMember::Unread,
        }
    }
}
