// What the program writes of a record.
use crate::calls::Calls;
use crate::options::Options;
use crate::{account, calls, printed};
use std::alloc::{AllocError, Global};
use wording::Misreadings;

// Kept: each text by itself, since one that joins them would stand in memory beside them.
#[derive(Drop)]
pub struct Written {
    page: String,
    account: String,
    pub misreadings: Misreadings,
    // The page was asked for alone.
    alone: bool,
}

impl Written {
    // What goes to standard output: the page, and the account if the page was not asked for alone.
    pub(crate) fn output(&self) -> [&str; 2] {
        if self.alone {
            [self.page.as_str(), ""]
        } else {
            [self.page.as_str(), self.account.as_str()]
        }
    }

    // What goes to standard error.
    pub(crate) fn messages(&self) -> [&str; 2] {
        if self.alone {
            [self.account.as_str(), self.misreadings.text.as_str()]
        } else {
            ["", self.misreadings.text.as_str()]
        }
    }
}

pub(crate) fn of(heap: Global, record: &[u8], options: &Options) -> Result<Written, AllocError> {
    let mut calls = calls::of(heap, record)?;
    let printed = printed::on_page(heap, calls.entries.as_mut_slice(), options)?;
    let page = account::lines(heap, &calls, &printed, options)?;
    let account = account::of(heap, &calls, &printed, options)?;
    let Calls { misreadings, .. } = calls;
    Ok(Written {
        page,
        account,
        misreadings,
        alone: options.page,
    })
}
