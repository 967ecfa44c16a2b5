//! The text of a reference with another query and fragment, and where its own begin: RFC 3986,
//! section 5.3.
ghost use Rattle.std.specs.Prelude.{◌≡◌, ◌≤◌, IfOk, IfSome, None, length, string_bytes, take};
ghost use Rattle.uriparse_text.specs.Fragment.{IsFragment};
ghost use Rattle.uriparse_text.specs.Query.{IsQuery};
ghost use Rattle.uriparse_reference.specs.TextEdits.{with_end, with_fragment};

use super::ReferenceView;
use super::put::{PutText, make_string};
use super::write::prepend_query_and_fragment;
use std::alloc::{AllocError, Global};
use uriparse_text::fragment::Fragment;
use uriparse_text::internal::{Form, Held, prepend};
use uriparse_text::query::Query;

/// The text of a view with this query and this fragment in place of its own.
#[derive(Drop)]
struct TextWithEnd<'v, 't> {
    view: &'v ReferenceView<'t>,
    query: &'v Option<Query<'t>>,
    fragment: &'v Option<Fragment<'t>>,
}

impl<'v, 't> PutText for TextWithEnd<'v, 't> {
    ghost can_be_put = { λ t. IfSome t.query.now IsQuery × IfSome t.fragment.now IsFragment };

    ghost text = { λ t. with_end t.view.now.text t.query.now t.fragment.now };

    fn put(&self, out: &mut [u8]) -> usize {
        let view = self.view;
        view.assert_valid();
        let len = prepend_query_and_fragment(Form::AsIs, self.query, self.fragment, out);
        prepend(view.without_end(), out, len)
    }
}

impl<'t> ReferenceView<'t> {
    /// What precedes the query and the fragment.
    pub(super) fn without_end(&self) -> &'t [u8]
        ensures { result.now ≡ with_end self.now.text None None }
    {
        let text = self.as_str().as_bytes();
        let (query, fragment) = (Held(self.query()), Held(self.fragment()));
        let len = prepend_query_and_fragment(Form::AsIs, &query.0, &fragment.0, &mut []);
        &text[..text.len() - len]
    }

    /// The length of what precedes the fragment.
    pub(in crate::uri_reference) fn len_before_fragment(&self) -> usize
        ensures within { result ≤ length self.now.text }
        ensures text { take result self.now.text ≡ with_fragment self.now.text None }
    {
        let text = self.as_str().as_bytes();
        let fragment = Held(self.fragment());
        let len = prepend_query_and_fragment(Form::AsIs, &None, &fragment.0, &mut []);
        text.len() - len
    }

    /// The text with this query and this fragment in place of its own. Allocates once, exactly its
    /// length.
    pub(in crate::uri_reference) fn with_end(
        &self,
        alloc: Global,
        query: &Option<Query<'_>>,
        fragment: &Option<Fragment<'_>>,
    ) -> Result<String, AllocError>
        requires query { IfSome query.now IsQuery }
        requires fragment { IfSome fragment.now IsFragment }
        ensures { IfOk result (λ s. string_bytes s ≡ with_end self.now.text query.now fragment.now) }
    {
        let text = TextWithEnd {
            view: self,
            query,
            fragment,
        };
        make_string(alloc, &text)
    }
}
