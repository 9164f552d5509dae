//! The look of the page, light and dark.

/// The page's style sheet. It names nothing from elsewhere.
pub(crate) const STYLE: &str = "\
:root{color-scheme:light dark;--ink:#1b1f24;--faint:#59636e;--line:#d1d9e0;--back:#fff;--head:#f6f8fa;\
--good:#116329;--goodback:#dafbe1;--bad:#9a3412;--badback:#fff1e5}\
@media(prefers-color-scheme:dark){:root{--ink:#e6edf3;--faint:#9198a1;--line:#3d444d;--back:#0d1117;--head:#151b23;\
--good:#56d364;--goodback:#12261e;--bad:#ffb77c;--badback:#3a2412}}\
body{margin:0 auto;max-width:64rem;padding:1rem;font:16px/1.5 system-ui,sans-serif;color:var(--ink);background:var(--back)}\
h1{font-size:1.5rem;margin:0}h2{font-size:1.125rem;margin:1.5rem 0 .5rem}p{margin:.25rem 0}\
.mark{font-size:.875rem;padding:.125rem .625rem;border-radius:1rem;vertical-align:middle}\
.good{color:var(--good);background:var(--goodback)}.bad{color:var(--bad);background:var(--badback)}\
.alert{border-left:.25rem solid var(--bad);padding:.5rem .75rem;margin:.5rem 0;color:var(--bad);background:var(--badback)}\
.faint{color:var(--faint)}.wide{overflow-x:auto;border:1px solid var(--line);border-radius:.375rem}\
table{border-collapse:collapse;width:100%;font-variant-numeric:tabular-nums}\
th,td{text-align:left;padding:.375rem .75rem;border-top:1px solid var(--line);white-space:nowrap}\
tr:first-child>th{border-top:0;background:var(--head);font-weight:600}\
td.words{white-space:normal;overflow-wrap:anywhere}\
dl{display:grid;grid-template-columns:repeat(auto-fill,minmax(17rem,1fr));gap:.25rem 1.5rem;margin:0}\
dl div{display:flex;justify-content:space-between;border-bottom:1px solid var(--line);gap:1rem}dt{color:var(--faint)}\
dd{margin:0;font-variant-numeric:tabular-nums}\
@media(max-width:40rem){th,td{padding:.375rem .375rem}th{white-space:normal}}";
