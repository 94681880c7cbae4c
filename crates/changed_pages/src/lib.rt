// The pages that an upload changes. The functions do nothing; what a list of calls does with an image is `finished_uploads`'.
#![tactic(auto)]

ghost use Rattle.changed_pages.specs.Claims.{PagesLaid, PagesCounted};

// Laid one after the other, they are the image laid at O.
pub fn pages_laid()
    ensures { PagesLaid }
{}

// There are as many as the commits of an upload count.
pub fn pages_counted()
    ensures { PagesCounted }
{}
