//! The style of pages.

/// It stands in each page as it is, and has neither `<` nor `&`.
pub(crate) const STYLE: &str =
    ":root{color-scheme:light dark;--back:#fff;--text:#1b1f23;--soft:#545c66;--line:#cfd5dc;--fill:#eef1f4;--link:#0a4fb3;--bad:#b3201b;--trouble:#c5221f;--work:#a85f00;--use:#1f62b5;--ready:#23803a;--new:#7b828c}
@media(prefers-color-scheme:dark){:root{--back:#14171a;--text:#e4e7ea;--soft:#a6aeb7;--line:#3b424a;--fill:#23282e;--link:#8cb8ff;--bad:#ff8f86;--trouble:#f4655c;--work:#e8a33d;--use:#659fe8;--ready:#4fb065;--new:#8e959e}}
html{background:var(--back);color:var(--text);font:1rem/1.5 system-ui,sans-serif}
body{margin:0 auto;max-width:84rem;padding:0 1rem 3rem}
h1{font-size:1.6rem;margin:1rem 0 0}
h2{font-size:1.3rem;margin:2.2rem 0 .3rem;border-bottom:2px solid var(--line)}
h3{font-size:1.05rem;display:inline}
p,ul{margin:.3rem 0}
a{color:var(--link)}
:focus-visible{outline:3px solid var(--link);outline-offset:1px}
strong{color:var(--bad)}
nav ul,figure ul{display:flex;flex-wrap:wrap;gap:.2rem 1.2rem;list-style:none;padding:0}
div[role]{overflow-x:auto;margin:.4rem 0}
table{border-collapse:collapse;font-variant-numeric:tabular-nums}
caption,thead th,time,.axis,.none{color:var(--soft)}
caption{text-align:left}
th,td{padding:.15rem .9rem .15rem 0;text-align:left;vertical-align:top;border-bottom:1px solid var(--line)}
th{font-weight:600}
tbody th{font-weight:400}
td,thead th{white-space:nowrap}
#members td{white-space:normal}
:is(#trouble,#work,#machines) tr>:first-child{position:sticky;left:0;background:var(--back)}
.n{text-align:right}
th[aria-sort=ascending]::after{content:\" \\25b2\"}
th[aria-sort=descending]::after{content:\" \\25bc\"}
code{background:var(--fill);border-radius:3px;padding:.1rem .3rem;overflow-wrap:anywhere;-webkit-user-select:all;user-select:all;white-space:nowrap;display:inline-block;max-width:100%;overflow-x:auto;vertical-align:bottom}
td svg{background:var(--fill);margin-right:.5rem}
rect,path{fill:var(--k,var(--work))}
.trouble{--k:var(--trouble)}
.work{--k:var(--work)}
.use{--k:var(--use)}
.ready{--k:var(--ready)}
.new{--k:var(--new)}
form{display:flex;flex-wrap:wrap;gap:.5rem 1rem;align-items:end;margin:.6rem 0}
label{display:grid;color:var(--soft);font-size:.9rem}
input,select,button{font:inherit;font-size:1rem;box-sizing:border-box;height:2rem;padding:0 .4rem;max-width:12rem}
details{margin:.8rem 0}
summary{cursor:pointer;width:fit-content}
figure{margin:.8rem 0;max-width:60rem}
figure svg{display:block;width:100%;height:10rem;background:var(--fill)}
figure path{stroke:var(--back);stroke-width:1px;vector-effect:non-scaling-stroke}
figure .tick{fill:none;stroke:var(--soft)}
.axis{display:flex;font-size:.9rem}
.axis span{width:25%}
.axis :last-child{width:3rem;margin-left:-3rem;text-align:right}
figure li::before{content:\"\";display:inline-block;width:.8em;height:.8em;margin-right:.4em;background:var(--k)}
footer{margin-top:3rem;color:var(--soft)}
body>p{position:fixed;inset:auto 0 0;z-index:1;margin:0;padding:.6rem 1rem;background:#b3201b;color:#fff;font-weight:600}
@media(max-width:40rem){body{padding:0 .6rem 3rem}th,td{padding-right:.6rem}label{flex:1 1 40%}input,select{width:100%;max-width:none}td svg{width:60px}}
@media(forced-colors:active){rect{fill:CanvasText}}
";
